//! A web made ready for growth, and what an automaton that enters a list marks.
ghost use Rattle.std.specs.Prelude.{◌≡◌, ℕ, ◌+◌, ◌<◌, ◌≤◌, All, length, IfOk, OnOk};
ghost use Rattle.reo_growth.specs.Lists.{Among};
ghost use Rattle.reo_growth.specs.Web.{links_of};
ghost use Rattle.reo_growth.specs.Growth.{Vertex, with_link};
ghost use Rattle.reo_growth.specs.Marks.{AreBelow, Changes, IsBefore, NoneOpenBefore, is_newly_held, opened};
ghost use Rattle.reo_growth.specs.Trail.{Undoes};
ghost use Rattle.reo_growth.specs.Ground.{AreLong, AreMarksOf, IsGround};

use crate::marks::{Mark, fires, mark_fired, mark_known, open_holders};
use crate::trail::{Marking, Trail};
use crate::web::Web;
use sqlite_items::Items;
use std::alloc::AllocError;

/// A web, and for each name the automata that have it, and the other ends of the FIFO1s that end with it.
#[derive(Drop)]
pub struct Ground {
    pub web: Web,
    pub holders: Items<Items<u32>>,
    pub partners: Items<Items<u32>>,
}

/// Marks the automata that have a name of a link that did not fire before, and tells the least of them and a number.
fn mark_all_open(
    automata: &mut Trail,
    names: &[Mark],
    holders: &[Items<u32>],
    link: &[u32],
    mut least: usize,
) -> Result<usize, AllocError>
    requires below { All (AreBelow (length automata.old.marks.items)) holders.now }
    requires named { AreBelow (length holders.now) link.now }
    requires known { AreBelow (length names.now) link.now }
    ensures opened { OnOk result (Changes (is_newly_held names.now holders.now link.now) opened automata.old.marks.items automata.new.marks.items) }
    ensures undo { OnOk result (Undoes automata.old automata.new) }
    ensures least { IfOk result (IsBefore (is_newly_held names.now holders.now link.now) least) }
{
    for name in link {
        let name = *name as usize;
        let already = fires(names[name]);
        least = open_holders(automata, already, holders[name].as_slice(), least)?;
    }
    Ok(least)
}

/// Marks the list that an automaton with one of its links makes of another list, where it is the least that can be open,
/// and tells before which automaton none is open then.
pub fn enter(
    ground: &Ground,
    x: usize,
    link: &[u32],
    marking: &mut Marking,
) -> Result<usize, AllocError>
    requires ground { IsGround ground.now }
    requires within { x < length ground.now.web.automata }
    requires its { Among link.now (links_of ground.now.web x) }
    requires long { AreLong ground.now.web marking.old }
    requires before { NoneOpenBefore x marking.old.automata.marks.items }
    ensures within { IfOk result (λ from. from ≤ x + 1) }
    ensures before { IfOk result (λ from. NoneOpenBefore from marking.new.automata.marks.items) }
    ensures entered { (v : Vertex) → AreMarksOf ground.now.web v marking.old → OnOk result (AreMarksOf ground.now.web (with_link v x link.now) marking.new) }
    ensures automata { OnOk result (Undoes marking.old.automata marking.new.automata) }
    ensures names { OnOk result (Undoes marking.old.names marking.new.names) }
{
    let automaton = &ground.web.automata.as_slice()[x];
    let least = mark_all_open(
        &mut marking.automata,
        marking.names.marks.as_slice(),
        ground.holders.as_slice(),
        link,
        x + 1,
    )?;
    mark_fired(&mut marking.names, link)?;
    mark_known(&mut marking.names, automaton.names.as_slice())?;
    marking.automata.change(x as u32, Mark::Listed)?;
    Ok(least)
}
