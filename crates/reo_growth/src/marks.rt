//! What growth marks of a partial firing, so that no list of automata is searched.
ghost use Rattle.std.specs.Prelude.{◌≡◌, ℕ, [], length, All, position, slice_index_or, nat_eq, not, ◌&&◌, ◌<◌, ◌≤◌, IfOk, OnOk};
ghost use Rattle.std.specs.List.{list_all};
ghost use Rattle.reo_growth.specs.Lists.{has};
ghost use Rattle.reo_growth.specs.Marks.{AreBelow, Changes, IsBefore, NoneOpenBefore, allows, is_fires, is_free, is_open_mark, met, opened};
ghost use Rattle.reo_growth.specs.Trail.{Undoes};

use crate::trail::Trail;
use sqlite_items::Items;
use std::alloc::AllocError;

/// The mark of an automaton, or of a name.
#[derive(Clone, Copy)]
pub enum Mark {
    /// The automaton is neither in the list nor open.
    Absent,
    /// The automaton is not in the list, and a name of it fires.
    Open,
    /// The automaton is in the list.
    Listed,
    /// No automaton in the list has the name.
    Unknown,
    /// An automaton in the list has the name, and it does not fire.
    Silent,
    Fires,
}

pub fn fires(mark: Mark) -> bool
    ensures { result ≡ is_fires mark }
{
    matches!(mark, Mark::Fires)
}

fn first_of(automata: &[Mark]) -> Option<usize>
    ensures { result ≡ position is_open_mark automata.now }
{
    automata.iter().position(|mark| matches!(mark, Mark::Open))
}

/// How many marks are looked at together.
const STRIDE: usize = 64;

fn is_open(mark: Mark) -> bool
    ensures { result ≡ is_open_mark mark }
{
    matches!(mark, Mark::Open)
}

/// Whether no automaton is open. All marks are looked at, many at once.
fn none_open(marks: &[Mark]) -> bool
    ensures { result ≡ list_all (λ mark. not (is_open_mark mark)) marks.now }
{
    let mut none = true;
    for mark in marks {
        none &= !is_open(*mark);
    }
    none
}

/// A later automaton before which none is open, at most the least that is.
fn skip_closed(automata: &[Mark], mut from: usize) -> usize
    requires within { from ≤ length automata.now }
    requires before { NoneOpenBefore from automata.now }
    ensures within { result ≤ length automata.now }
    ensures before { NoneOpenBefore result automata.now }
{
    while automata.len() - from >= STRIDE {
        if !none_open(&automata[from..from + STRIDE]) {
            return from;
        }
        from += STRIDE;
    }
    from
}

/// The least automaton that is open, where none before this one is.
pub fn first_open(automata: &[Mark], from: usize) -> Option<usize>
    requires within { from ≤ length automata.now }
    requires before { NoneOpenBefore from automata.now }
    ensures { result ≡ position is_open_mark automata.now }
{
    let from = skip_closed(automata, from);
    let later = first_of(&automata[from..])?;
    Some(from + later)
}

/// Whether a link says of each name what is known of it.
pub fn agrees(marks: &[Mark], names: &[u32], link: &[u32]) -> bool
    requires { AreBelow (length marks.now) names.now }
    ensures { result ≡ list_all (λ name. allows (slice_index_or marks.now name Mark.Unknown) (has link.now name)) names.now }
{
    for name in names {
        let allowed = match marks[*name as usize] {
            Mark::Silent => !link.contains(name),
            Mark::Fires => link.contains(name),
            _ => true,
        };
        if !allowed {
            return false;
        }
    }
    true
}

/// Marks a name of a link that enters the list.
fn fire(names: &mut Trail, name: u32) -> Result<(), AllocError>
    requires { name < length names.old.marks.items }
    ensures changed { OnOk result (Changes (nat_eq name) (λ _. Mark.Fires) names.old.marks.items names.new.marks.items) }
    ensures undo { OnOk result (Undoes names.old names.new) }
{
    match names.marks[name as usize] {
        Mark::Fires => Ok(()),
        _ => names.change(name, Mark::Fires),
    }
}

/// Marks a name of an automaton that enters the list.
fn meet(names: &mut Trail, name: u32) -> Result<(), AllocError>
    requires { name < length names.old.marks.items }
    ensures changed { OnOk result (Changes (nat_eq name) met names.old.marks.items names.new.marks.items) }
    ensures undo { OnOk result (Undoes names.old names.new) }
{
    match names.marks[name as usize] {
        Mark::Unknown => names.change(name, Mark::Silent),
        _ => Ok(()),
    }
}

/// Marks an automaton with a name that fires from now on.
fn open_one(automata: &mut Trail, x: u32) -> Result<(), AllocError>
    requires { x < length automata.old.marks.items }
    ensures changed { OnOk result (Changes (nat_eq x) opened automata.old.marks.items automata.new.marks.items) }
    ensures undo { OnOk result (Undoes automata.old automata.new) }
{
    match automata.marks[x as usize] {
        Mark::Absent => automata.change(x, Mark::Open),
        _ => Ok(()),
    }
}

/// Marks the names of a link that enters the list.
pub fn mark_fired(names: &mut Trail, link: &[u32]) -> Result<(), AllocError>
    requires { AreBelow (length names.old.marks.items) link.now }
    ensures changed { OnOk result (Changes (has link.now) (λ _. Mark.Fires) names.old.marks.items names.new.marks.items) }
    ensures undo { OnOk result (Undoes names.old names.new) }
{
    for name in link {
        fire(names, *name)?;
    }
    Ok(())
}

/// Marks the names of an automaton that enters the list.
pub fn mark_known(names: &mut Trail, its: &[u32]) -> Result<(), AllocError>
    requires { AreBelow (length names.old.marks.items) its.now }
    ensures changed { OnOk result (Changes (has its.now) met names.old.marks.items names.new.marks.items) }
    ensures undo { OnOk result (Undoes names.old names.new) }
{
    for name in its {
        meet(names, *name)?;
    }
    Ok(())
}

/// Marks the automata of a name that fires from now on, and tells the least of them and a number.
fn mark_open(automata: &mut Trail, holders: &[u32], mut least: usize) -> Result<usize, AllocError>
    requires { AreBelow (length automata.old.marks.items) holders.now }
    ensures opened { OnOk result (Changes (has holders.now) opened automata.old.marks.items automata.new.marks.items) }
    ensures undo { OnOk result (Undoes automata.old automata.new) }
    ensures least { IfOk result (IsBefore (has holders.now) least) }
{
    for holder in holders {
        open_one(automata, *holder)?;
        least = least.min(*holder as usize);
    }
    Ok(least)
}

/// The same for a name that may have fired already: then all its automata are open or listed.
pub fn open_holders(
    automata: &mut Trail,
    already: bool,
    holders: &[u32],
    least: usize,
) -> Result<usize, AllocError>
    requires { AreBelow (length automata.old.marks.items) holders.now }
    ensures opened { OnOk result (Changes (λ x. not already && has holders.now x) opened automata.old.marks.items automata.new.marks.items) }
    ensures undo { OnOk result (Undoes automata.old automata.new) }
    ensures least { IfOk result (IsBefore (λ x. not already && has holders.now x) least) }
{
    if already {
        Ok(least)
    } else {
        mark_open(automata, holders, least)
    }
}

/// Whether none of these names fires, nor stands in the link.
fn are_free(marks: &[Mark], others: &[u32], link: &[u32]) -> bool
    requires { AreBelow (length marks.now) others.now }
    ensures { result ≡ list_all (is_free marks.now link.now) others.now }
{
    for other in others {
        if fires(marks[*other as usize]) || link.contains(other) {
            return false;
        }
    }
    true
}

/// The other ends of the FIFO1s that end with a name; none where the table ends before it.
fn partners_at(partners: &[Items<u32>], name: u32) -> &[u32]
    ensures { result.now ≡ slice_index_or partners.now name [] }
{
    match partners.get(name as usize) {
        Some(others) => others.as_slice(),
        None => &[],
    }
}

/// Whether no FIFO1 has one end in the link, and the other there or among the names that fire.
pub fn fits(marks: &[Mark], partners: &[Items<u32>], link: &[u32]) -> bool
    requires below { All (AreBelow (length marks.now)) partners.now }
    ensures { result ≡ list_all (λ name. list_all (is_free marks.now link.now) (slice_index_or partners.now name [])) link.now }
{
    for name in link {
        if !are_free(marks, partners_at(partners, *name), link) {
            return false;
        }
    }
    true
}
