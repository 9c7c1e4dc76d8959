//! Growth from one root: the search over partial firings.
ghost use Rattle.std.specs.Prelude.{◌≡◌, ℕ, ◌+◌, ◌<◌, ◌≤◌, ◌^◌, ◌∷◌, [], length, flat_map, IfOk, OnOk};
ghost use Rattle.reo_growth.specs.Lists.{Among};
ghost use Rattle.reo_growth.specs.Web.{links_of};
ghost use Rattle.reo_growth.specs.Growth.{Vertex, extended, grown};
ghost use Rattle.reo_growth.specs.Marks.{NoneOpenBefore};
ghost use Rattle.reo_growth.specs.Ground.{AreLong, AreMarksOf, AreUnchanged, IsGround};
ghost use Rattle.reo_growth.specs.Found.{Went};
ghost use Rattle.reo_growth.specs.Sound.{IsReady, IsSound, widened};

use crate::found::Found;
use crate::ground::{Ground, enter};
use crate::marks::{agrees, first_open, fits};
use crate::trail::Marking;
use std::alloc::AllocError;

/// Goes over a vertex and all that grows from it with at most `left` further automata; false where there is not room
/// for all of these. No automaton before `from` is open.
#[cycle(growth)]
fn grow(
    ground: &Ground,
    root: usize,
    from: usize,
    left: usize,
    marking: &mut Marking,
    found: &mut Found,
) -> Result<bool, AllocError>
    requires ground { IsGround ground.now }
    requires long { AreLong ground.now.web marking.old }
    requires within { from ≤ length ground.now.web.automata }
    requires before { NoneOpenBefore from marking.old.automata.marks.items }
    requires room { found.old.count + found.old.room < 2 ^ 32 }
    ensures marking { OnOk result (AreUnchanged marking.old marking.new) }
    ensures room { OnOk result (found.new.count + found.new.room ≤ found.old.count + found.old.room) }
    ensures went { (v : Vertex) → IsSound ground.now.web root v → AreMarksOf ground.now.web v marking.old → IfOk result (Went ground.now.web (grown ground.now.web root left v) found.old found.new) }
{
    if found.room == 0 {
        return Ok(false);
    }
    found.room -= 1;
    let Some(x) = first_open(marking.automata.marks.as_slice(), from) else {
        found.keep(marking.names.marks.as_slice())?;
        return Ok(true);
    };
    if left == 0 || x < root {
        return Ok(true);
    }
    widen(ground, root, x, left - 1, marking, found)
}

/// Goes over all that grows from a list by an automaton that enters it.
#[cycle(growth)]
pub fn widen(
    ground: &Ground,
    root: usize,
    x: usize,
    left: usize,
    marking: &mut Marking,
    found: &mut Found,
) -> Result<bool, AllocError>
    requires ground { IsGround ground.now }
    requires within { x < length ground.now.web.automata }
    requires long { AreLong ground.now.web marking.old }
    requires before { NoneOpenBefore x marking.old.automata.marks.items }
    requires room { found.old.count + found.old.room < 2 ^ 32 }
    ensures marking { OnOk result (AreUnchanged marking.old marking.new) }
    ensures room { OnOk result (found.new.count + found.new.room ≤ found.old.count + found.old.room) }
    ensures went { (v : Vertex) → IsReady ground.now.web root v x → AreMarksOf ground.now.web v marking.old → IfOk result (Went ground.now.web (flat_map (grown ground.now.web root left) (extended ground.now.web v x)) found.old found.new) }
{
    let automaton = &ground.web.automata.as_slice()[x];
    for link in automaton.links.as_slice() {
        if !grow_child(ground, root, x, link.as_slice(), left, marking, found)? {
            return Ok(false);
        }
    }
    Ok(true)
}

/// Goes over all that grows from a list by an automaton that enters it with this link, where the link agrees and fits.
#[cycle(growth)]
fn grow_child(
    ground: &Ground,
    root: usize,
    x: usize,
    link: &[u32],
    left: usize,
    marking: &mut Marking,
    found: &mut Found,
) -> Result<bool, AllocError>
    requires ground { IsGround ground.now }
    requires within { x < length ground.now.web.automata }
    requires its { Among link.now (links_of ground.now.web x) }
    requires long { AreLong ground.now.web marking.old }
    requires before { NoneOpenBefore x marking.old.automata.marks.items }
    requires room { found.old.count + found.old.room < 2 ^ 32 }
    ensures marking { OnOk result (AreUnchanged marking.old marking.new) }
    ensures room { OnOk result (found.new.count + found.new.room ≤ found.old.count + found.old.room) }
    ensures went { (v : Vertex) → IsReady ground.now.web root v x → AreMarksOf ground.now.web v marking.old → IfOk result (Went ground.now.web (flat_map (grown ground.now.web root left) (widened ground.now.web v x (link.now ∷ []))) found.old found.new) }
{
    let names = ground.web.automata.as_slice()[x].names.as_slice();
    if !agrees(marking.names.marks.as_slice(), names, link) {
        return Ok(true);
    }
    if !fits(
        marking.names.marks.as_slice(),
        ground.partners.as_slice(),
        link,
    ) {
        return Ok(true);
    }
    let opened = marking.automata.log.len();
    let named = marking.names.log.len();
    let from = enter(ground, x, link, marking)?;
    let within = grow(ground, root, from, left, marking, found)?;
    marking.automata.undo(opened);
    marking.names.undo(named);
    Ok(within)
}
