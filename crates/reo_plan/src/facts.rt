//! What the names of a firing ask.
ghost use Rattle.std.specs.Prelude.{◌≡◌, ◌<◌, length, if◌then◌else◌, is_some, Bool, ◌&&◌, IfOk, OnOk, IsTrue, ◌↔◌};
ghost use Rattle.std.specs.Bool.{OnTrue};
ghost use Rattle.std.specs.List.{list_all};
ghost use Rattle.std.specs.Option.{option_to_list};
ghost use Rattle.reo_flow.specs.declared.fact.Fact.TheVariants.{Met as AnyMet, Failed as AnyFailed};
ghost use Rattle.reo_flow.specs.declared.fact.Fact.{Fact as AnyFact};
ghost use Rattle.reo_net.specs.Names.{end_b};
ghost use Rattle.reo_net.specs.Steps.{cell_of};
ghost use Rattle.reo_plan.specs.inside.Cells.{cell_numbers};
ghost use Rattle.reo_plan.specs.inside.Rows.{slot_in, end_fact, a_fact, own_fact, slot_facts};

use crate::givers::cell_number;
use crate::row::room_for;
use reo_flow::Fact;
use reo_net::{Channel, Kind, Net};
use sqlite_items::{Items, at};
use std::alloc::{AllocError, Global};

/// The slot of a name.
pub(crate) fn slot_in(table: &[Option<u32>], name: u32) -> Option<u32>
    ensures { result ≡ slot_in table.now name }
{
    let name = name as usize;
    if name < table.len() {
        table[name]
    } else {
        None
    }
}

pub(crate) fn is_same(x: &Fact, y: Fact) -> bool
    ensures { IsTrue result ↔ (x.now ≡ y) }
{
    *x == y
}

fn is_among(facts: &[Fact], fact: Fact) -> bool
    ensures { OnTrue result ((p : AnyFact → Bool) → list_all p facts.now ≡ (list_all p facts.now && p fact)) }
{
    for other in facts {
        if is_same(other, fact) {
            return true;
        }
    }
    false
}

/// Adds a fact, if it is not there yet.
fn add_fact(facts: &mut Items<Fact>, fact: Fact) -> Result<(), AllocError>
    ensures { OnOk result ((p : AnyFact → Bool) → list_all p facts.new ≡ (list_all p facts.old && p fact)) }
{
    if is_among(facts.as_slice(), fact) {
        return Ok(());
    }
    facts.push(fact)
}

fn guard_fact(net: &Net, table: &[Option<u32>], number: u32, slot: u32) -> Fact
    requires { number < length net.now.channels }
    ensures { result ≡ (if is_some (slot_in table.now (end_b net.now number)) then AnyMet number slot else AnyFailed number slot) }
{
    let end_b = net.ports().len() as u32 + 2 * number + 1;
    if slot_in(table, end_b).is_some() {
        Fact::Met(number, slot)
    } else {
        Fact::Failed(number, slot)
    }
}

fn end_fact(
    net: &Net,
    cells: &[u32],
    table: &[Option<u32>],
    number: u32,
    slot: u32,
    channel: &Channel,
) -> Option<Fact>
    requires found { number < length net.now.channels }
    requires cells { cells.now ≡ cell_numbers net.now }
    ensures { result ≡ end_fact net.now table.now number slot channel.now.kind }
{
    match channel.kind {
        Kind::Sync => None,
        Kind::Lossy => None,
        Kind::Drain => None,
        Kind::Fifo(_) => Some(Fact::Empty(cell_number(net, cells, number))),
        Kind::Filter(_) => Some(guard_fact(net, table, number, slot)),
        Kind::Transform(_) => None,
    }
}

fn a_fact(
    net: &Net,
    cells: &[u32],
    table: &[Option<u32>],
    number: u32,
    slot: u32,
    is_a: bool,
    channel: &Channel,
) -> Option<Fact>
    requires found { number < length net.now.channels }
    requires cells { cells.now ≡ cell_numbers net.now }
    ensures { result ≡ a_fact net.now table.now number slot is_a channel.now }
{
    if is_a {
        end_fact(net, cells, table, number, slot, channel)
    } else {
        None
    }
}

/// What a name asks, besides a datum.
fn own_fact(net: &Net, cells: &[u32], table: &[Option<u32>], name: u32, slot: u32) -> Option<Fact>
    requires { cells.now ≡ cell_numbers net.now }
    ensures { result ≡ own_fact net.now table.now name slot }
{
    let ports = net.ports().len();
    let name = name as usize;
    if name < ports {
        Some(Fact::Offered(name as u32))
    } else {
        let number = (name - ports) / 2;
        match at(net.channels(), number) {
            Some(channel) => {
                let is_a = (name - ports) % 2 == 0;
                a_fact(net, cells, table, number as u32, slot, is_a, channel)
            }
            None => None,
        }
    }
}

fn add_own(facts: &mut Items<Fact>, own: Option<Fact>) -> Result<(), AllocError>
    ensures { OnOk result ((p : AnyFact → Bool) → list_all p facts.new ≡ (list_all p facts.old && list_all p (option_to_list own))) }
{
    match own {
        Some(fact) => facts.push(fact),
        None => Ok(()),
    }
}

/// Adds all that a name asks.
fn add_name(
    facts: &mut Items<Fact>,
    net: &Net,
    cells: &[u32],
    table: &[Option<u32>],
    name: u32,
) -> Result<(), AllocError>
    requires { cells.now ≡ cell_numbers net.now }
    ensures { OnOk result ((p : AnyFact → Bool) → list_all p facts.new ≡ (list_all p facts.old && list_all p (slot_facts net.now table.now name))) }
{
    let Some(slot) = slot_in(table, name) else {
        return Ok(());
    };
    add_own(facts, own_fact(net, cells, table, name, slot))?;
    add_fact(facts, Fact::Known(slot))
}

/// What the names of a firing ask.
pub(crate) fn facts_of(
    alloc: Global,
    net: &Net,
    cells: &[u32],
    table: &[Option<u32>],
    names: &[u32],
) -> Result<Items<Fact>, AllocError>
    requires { cells.now ≡ cell_numbers net.now }
    ensures { IfOk result (λ facts. (p : AnyFact → Bool) → list_all p facts ≡ list_all (λ name. list_all p (slot_facts net.now table.now name)) names.now) }
{
    let mut facts = room_for(alloc, names.len())?;
    for name in names {
        add_name(&mut facts, net, cells, table, *name)?;
    }
    Ok(facts)
}
