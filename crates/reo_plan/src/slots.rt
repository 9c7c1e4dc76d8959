//! Slots for the data of a region's firings, which firings share.
ghost use Rattle.std.specs.Prelude.{◌≡◌, ℕ, ◌<◌, ◌^◌, length, slice_get, Some, IfOk, IfSome, OnOk, IsTrue, ◌↔◌, ◌+◌};
ghost use Rattle.reo_net.specs.declared.circuit.RawCircuit.{RawCircuit};
ghost use Rattle.reo_plan.specs.inside.Givers.{giver_in, AreTold};
ghost use Rattle.reo_plan.specs.inside.Slots.{slot_at, LooksBelow, AreOrdered, AreMore, HasFlow};

use crate::givers::known_giver;
use reo_flow::Giver;
use reo_net::Net;
use sqlite_items::Items;
use std::alloc::{AllocError, Global};

/// Where data come from: those in slots, or those at a circuit's names, in a firing with these names. A name's giver is found
/// when it is asked for, by the circuit, the numbers of its cells, the firing's names, those that come into nodes, and the
/// givers of the firing's names; and guesses of the names' places among them.
#[derive(Drop)]
pub(crate) enum Givers<'a> {
    Slots(&'a [Giver]),
    Names(&'a Net, &'a [u32], &'a [u32], &'a [(u32, u32)], &'a [Giver], &'a [usize]),
}

fn same(x: &Giver, y: Giver) -> bool
    ensures { IsTrue result ↔ (x.now ≡ y) }
{
    *x == y
}

/// The slot of this giver, if there is one.
fn found_slot(slots: &[Giver], giver: Giver) -> Option<u32>
    ensures { IfSome result (λ slot. slice_get slots.now slot ≡ Some giver) }
{
    for slot in 0..slots.len() {
        if same(&slots[slot], giver) {
            return u32::try_from(slot).ok();
        }
    }
    None
}

/// The slot of this giver: one that there is, or a new one at the end.
fn slot_with(slots: &mut Items<Giver>, giver: Giver) -> Result<u32, AllocError>
    requires ordered { AreOrdered slots.old }
    requires below { LooksBelow (length slots.old) giver }
    ensures more { OnOk result (AreMore slots.old slots.new) }
    ensures slot { IfOk result (λ slot. slice_get slots.new slot ≡ Some giver) }
{
    if let Some(slot) = found_slot(slots.as_slice(), giver) {
        return Ok(slot);
    }
    let Ok(slot) = u32::try_from(slots.len()) else {
        return Err(AllocError);
    };
    slots.push(giver)?;
    Ok(slot)
}

/// The giver of a slot.
pub(crate) fn giver_at(slots: &[Giver], slot: u32) -> Giver
    ensures { result ≡ slot_at slots.now slot }
{
    let slot = slot as usize;
    if slot < slots.len() {
        slots[slot]
    } else {
        Giver::Unfed
    }
}

/// The giver of a slot, or of a name.
pub(crate) fn giver_in(givers: &Givers<'_>, name: u32) -> Giver
    requires { AreTold givers.now }
    ensures { result ≡ giver_in givers.now name }
{
    match givers {
        Givers::Slots(slots) => giver_at(slots, name),
        Givers::Names(net, cells, names, incoming, known, places) => {
            known_giver(net, cells, names, incoming, known, places, name)
        }
    }
}

/// The slot of what flows to a name through so many givers.
pub(crate) fn slot_of(
    givers: &Givers<'_>,
    slots: &mut Items<Giver>,
    fuel: u32,
    name: u32,
) -> Result<u32, AllocError>
    requires told { AreTold givers.now }
    requires ordered { AreOrdered slots.old }
    ensures more { OnOk result (AreMore slots.old slots.new) }
    ensures flow { IfOk result (λ slot. (c : RawCircuit) → HasFlow c (giver_in givers.now) fuel name slots.new slot) }
{
    if fuel == 0 {
        return slot_with(slots, Giver::Unfed);
    }
    match giver_in(givers, name) {
        Giver::Unfed => slot_with(slots, Giver::Unfed),
        Giver::Cell(cell) => slot_with(slots, Giver::Cell(cell)),
        Giver::Port(port) => slot_with(slots, Giver::Port(port)),
        Giver::Same(other) => slot_of(givers, slots, fuel - 1, other),
        Giver::Image(channel, other) => {
            let datum = slot_of(givers, slots, fuel - 1, other)?;
            slot_with(slots, Giver::Image(channel, datum))
        }
    }
}
