//! The slots of a firing's data at the places of cells and ports, and at its names.
ghost use Rattle.std.specs.Prelude.{◌≡◌, ◌<◌, [], ◌++◌, length, All, IfOk, OnOk};
ghost use Rattle.std.specs.List.{cons_option};
ghost use Rattle.reo_net.specs.Names.{name_count};
ghost use Rattle.reo_flow.specs.Flow.{giver_of};
ghost use Rattle.reo_plan.specs.inside.Rows.{HasSlots, IsFilled, named_slots};
ghost use Rattle.reo_plan.specs.inside.Cells.{cell_numbers};
ghost use Rattle.reo_plan.specs.inside.Placed.{cell_in, cell_at, port_in, port_at, slot_at_place, placed_slots};
ghost use Rattle.reo_plan.specs.inside.Givers.{giver_in, AreTold};

use crate::facts::slot_in;
use crate::givers::cell_number;
use crate::row::room_for;
use crate::slots::{Givers, slot_of};
use reo_flow::Giver;
use reo_net::{Channel, Net, Port};
use reo_value::Way;
use sqlite_items::{Items, at};
use std::alloc::{AllocError, Global};

/// Adds a place with a slot, where there are both.
fn add_place(
    places: &mut Items<(u32, u32)>,
    place: Option<u32>,
    slot: Option<u32>,
) -> Result<(), AllocError>
    ensures { OnOk result (places.new ≡ places.old ++ cons_option (slot_at_place place slot) []) }
{
    match place {
        Some(place) => match slot {
            Some(slot) => places.push((place, slot)),
            None => Ok(()),
        },
        None => Ok(()),
    }
}

fn cell_in(
    net: &Net,
    numbers: &[u32],
    at_b: bool,
    number: u32,
    is_a: bool,
    channel: &Channel,
) -> Option<u32>
    requires found { number < length net.now.channels }
    requires cells { numbers.now ≡ cell_numbers net.now }
    ensures { result ≡ cell_in net.now at_b number is_a channel.now }
{
    if is_a != at_b && channel.kind.is_fifo() {
        Some(cell_number(net, numbers, number))
    } else {
        None
    }
}

/// The cell at whose end b, or end a, a name is.
fn cell_at(net: &Net, numbers: &[u32], at_b: bool, name: u32) -> Option<u32>
    requires { numbers.now ≡ cell_numbers net.now }
    ensures { result ≡ cell_at net.now at_b name }
{
    let ports = net.ports().len();
    let name = name as usize;
    if name < ports {
        None
    } else {
        let number = (name - ports) / 2;
        match at(net.channels(), number) {
            Some(channel) => {
                let is_a = (name - ports) % 2 == 0;
                cell_in(net, numbers, at_b, number as u32, is_a, channel)
            }
            None => None,
        }
    }
}

/// The cells at whose ends b, or ends a, names are, with the slots of the names.
pub(crate) fn cell_slots(
    alloc: Global,
    net: &Net,
    numbers: &[u32],
    table: &[Option<u32>],
    names: &[u32],
    at_b: bool,
) -> Result<Items<(u32, u32)>, AllocError>
    requires { numbers.now ≡ cell_numbers net.now }
    ensures { IfOk result (λ places. places ≡ placed_slots (cell_at net.now at_b) table.now names.now) }
{
    let mut places = Items::new(alloc);
    for name in names {
        let cell = cell_at(net, numbers, at_b, *name);
        add_place(&mut places, cell, slot_in(table, *name))?;
    }
    Ok(places)
}

fn port_in(puts: bool, number: u32, port: &Port) -> Option<u32>
    ensures { result ≡ port_in puts number port.now }
{
    let is_put = match port.way {
        Way::Put => true,
        Way::Get => false,
    };
    if is_put == puts { Some(number) } else { None }
}

/// The put port, or the get port, that a name is.
fn port_at(net: &Net, puts: bool, name: u32) -> Option<u32>
    ensures { result ≡ port_at net.now puts name }
{
    match at(net.ports(), name as usize) {
        Some(port) => port_in(puts, name, port),
        None => None,
    }
}

/// The put ports, or the get ports, among names, with their slots.
pub(crate) fn port_slots(
    alloc: Global,
    net: &Net,
    table: &[Option<u32>],
    names: &[u32],
    puts: bool,
) -> Result<Items<(u32, u32)>, AllocError>
    ensures { IfOk result (λ places. places ≡ placed_slots (port_at net.now puts) table.now names.now) }
{
    let mut places = Items::new(alloc);
    for name in names {
        let port = port_at(net, puts, *name);
        add_place(&mut places, port, slot_in(table, *name))?;
    }
    Ok(places)
}

/// The names of a firing with their slots.
pub(crate) fn named_slots(
    alloc: Global,
    table: &[Option<u32>],
    names: &[u32],
) -> Result<Items<(u32, u32)>, AllocError>
    ensures { IfOk result (λ named. named ≡ named_slots table.now names.now) }
{
    let mut named = room_for(alloc, names.len())?;
    for name in names {
        add_place(&mut named, Some(*name), slot_in(table, *name))?;
    }
    Ok(named)
}

/// Fills a table that is empty with a slot for each name of a firing.
pub(crate) fn fill_slots(
    net: &Net,
    givers: &Givers<'_>,
    names: &[u32],
    slots: &mut Items<Giver>,
    table: &mut Vec<Option<u32>>,
) -> Result<(), AllocError>
    requires told { AreTold givers.now }
    requires givers { giver_in givers.now ≡ giver_of net.now names.now }
    requires names { All (λ name. name < name_count net.now) names.now }
    requires none { slots.old ≡ [] }
    requires empty { IsFilled (name_count net.now) [] table.old.items }
    ensures filled { OnOk result (IsFilled (name_count net.now) names.now table.new.items) }
    ensures slots { OnOk result (HasSlots net.now names.now names.now slots.new table.new.items) }
{
    let fuel = 2 * net.nodes() + 2;
    for name in names {
        let slot = slot_of(givers, slots, fuel, *name)?;
        table[*name as usize] = Some(slot);
    }
    Ok(())
}

/// Empties a table that is filled for the names of a firing.
pub(crate) fn empty_slots(net: &Net, names: &[u32], table: &mut Vec<Option<u32>>)
    requires names { All (λ name. name < name_count net.now) names.now }
    requires filled { IsFilled (name_count net.now) names.now table.old.items }
    ensures { IsFilled (name_count net.now) [] table.new.items }
{
    let _ = net;
    for name in names {
        table[*name as usize] = None;
    }
}
