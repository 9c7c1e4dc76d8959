//! The entry of a row, written into a room.
ghost use Rattle.std.specs.Prelude.{◌≡◌, ◌+◌, ◌≤◌, length};
ghost use Rattle.reo_fabric.specs.Room.{HasRoomFor};
ghost use Rattle.reo_flow.specs.Flow.{sources_of};
ghost use Rattle.reo_plan.specs.inside.Slots.{slot_value};
ghost use Rattle.reo_plan.specs.inside.Known.{IsKnown};
ghost use Rattle.reo_plan.specs.inside.Rows.{values_at};
ghost use Rattle.reo_plan.specs.inside.Sides.{added, used, most, one_place, entry_in};

use crate::known::{Known, known_at, turn_to};
use crate::row::Row;
use reo_fabric::{Reading, Room};
use reo_flow::Giver;
use reo_net::Net;
use reo_value::{Lexicon, Value};

/// The four lists of an entry.
#[derive(Clone, Copy)]
pub(crate) enum Side {
    Take,
    Fill,
    Put,
    Get,
}

/// Adds a place with its value, where there is one.
#[inline(always)]
fn add(room: &mut Room, side: Side, place: u32, value: Option<Value>)
    requires { used room.old side + length (one_place place value) ≤ most room.old side }
    ensures { room.new ≡ added room.old side (one_place place value) }
{
    let Some(value) = value else {
        return;
    };
    match side {
        Side::Take => room.take(place, value),
        Side::Fill => room.fill(place, value),
        Side::Put => room.put(place, value),
        Side::Get => room.get(place, value),
    }
}

/// Adds places with the values of their slots, of which one is known.
#[inline(always)]
fn write(
    room: &mut Room,
    side: Side,
    net: &Net,
    texts: &Lexicon,
    reading: &Reading,
    slots: &[Giver],
    known: &mut Known,
    places: &[(u32, u32)],
)
    requires known { IsKnown net.now texts.now (sources_of reading.now) slots.now known.old }
    requires room { used room.old side + length (values_at (slot_value net.now texts.now (sources_of reading.now) slots.now) places.now) ≤ most room.old side }
    ensures known { IsKnown net.now texts.now (sources_of reading.now) slots.now known.new }
    ensures room { room.new ≡ added room.old side (values_at (slot_value net.now texts.now (sources_of reading.now) slots.now) places.now) }
{
    for (place, slot) in places {
        turn_to(known, net, texts, reading, slots, *slot);
        add(room, side, *place, known.value);
    }
}

/// Writes the entry of a row.
pub(crate) fn write_row(
    room: &mut Room,
    net: &Net,
    texts: &Lexicon,
    reading: &Reading,
    row: &Row,
    choice: u32,
)
    requires { HasRoomFor room.old (entry_in net.now texts.now reading.now row.now room.old.entry.region choice) }
    ensures { room.new ≡ record room.old { entry = entry_in net.now texts.now reading.now row.now room.old.entry.region choice } }
{
    let slots = row.slots.as_slice();
    let mut known = known_at(net, texts, reading, slots, 0);
    room.begin(choice);
    write(
        room,
        Side::Take,
        net,
        texts,
        reading,
        slots,
        &mut known,
        row.takes.as_slice(),
    );
    write(
        room,
        Side::Fill,
        net,
        texts,
        reading,
        slots,
        &mut known,
        row.fills.as_slice(),
    );
    write(
        room,
        Side::Put,
        net,
        texts,
        reading,
        slots,
        &mut known,
        row.puts.as_slice(),
    );
    write(
        room,
        Side::Get,
        net,
        texts,
        reading,
        slots,
        &mut known,
        row.gets.as_slice(),
    );
}
