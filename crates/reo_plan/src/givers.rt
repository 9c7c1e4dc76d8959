//! Where the names of a firing have their data from.
ghost use Rattle.std.specs.Prelude.{◌≡◌, ◌+◌, ◌<◌, if◌then◌else◌, [], ◌∷◌, ◌++◌, length, map, IfOk, IfSome, OnOk};
ghost use Rattle.reo_net.specs.Names.{end_a};
ghost use Rattle.reo_net.specs.Kind.{is_fifo};
ghost use Rattle.reo_net.specs.Steps.{cell_of};
ghost use Rattle.reo_flow.specs.Flow.{input_of, port_giver, b_giver, end_giver, giver_of};
ghost use Rattle.reo_plan.specs.inside.Cells.{cell_numbers, first_into, incoming_of, node_into};

use reo_flow::Giver;
use reo_net::{Channel, Kind, Net, Port, stand_of};
use reo_value::Way;
use sqlite_items::at;
use std::alloc::{AllocError, Global};

/// How many FIFO1s there are up to a channel, where so many are before it.
fn with_channel(before: u32, channel: &Channel) -> u32
    requires { before < 512 }
    ensures { result ≡ (if is_fifo channel.now.kind then before + 1 else before) }
{
    if channel.kind.is_fifo() {
        before + 1
    } else {
        before
    }
}

/// For each channel the number of its cell, if it is a FIFO1.
pub(crate) fn cell_numbers(alloc: Global, net: &Net) -> Result<Vec<u32>, AllocError>
    ensures { IfOk result (λ cells. cells.items ≡ cell_numbers net.now) }
{
    let channels = net.channels();
    let mut cells = Vec::with_capacity(alloc, channels.len())?;
    let mut cell = 0;
    for channel in channels {
        cells.push(cell)?;
        cell = with_channel(cell, channel);
    }
    Ok(cells)
}

/// The node that a name comes into, if it does.
fn node_into(net: &Net, name: u32) -> Option<u32>
    ensures { result ≡ node_into net.now name }
{
    match stand_of(net, name) {
        Some(stand) => {
            if stand.incoming {
                Some(stand.node)
            } else {
                None
            }
        }
        None => None,
    }
}

/// Adds a name behind the node that it comes into, if it does.
fn add_incoming(net: &Net, pairs: &mut Vec<(u32, u32)>, name: u32) -> Result<(), AllocError>
    ensures { OnOk result (pairs.new.items ≡ pairs.old.items ++ incoming_of net.now (name ∷ [])) }
{
    match node_into(net, name) {
        Some(node) => {
            pairs.push((node, name))?;
            Ok(())
        }
        None => Ok(()),
    }
}

/// The names of a firing that come into nodes, each behind its node.
pub(crate) fn incoming_of(
    alloc: Global,
    net: &Net,
    names: &[u32],
) -> Result<Vec<(u32, u32)>, AllocError>
    ensures { IfOk result (λ pairs. pairs.items ≡ incoming_of net.now names.now) }
{
    let mut pairs = Vec::with_capacity(alloc, names.len())?;
    for name in names {
        add_incoming(net, &mut pairs, *name)?;
    }
    Ok(pairs)
}

fn first_into(incoming: &[(u32, u32)], node: u32) -> Option<u32>
    ensures { result ≡ first_into incoming.now node }
{
    let pair = incoming.iter().find(|pair| pair.0 == node)?;
    Some(pair.1)
}

/// The datum of the first of the names that comes into the node.
fn input_of(net: &Net, names: &[u32], incoming: &[(u32, u32)], node: u32) -> Giver
    requires { incoming.now ≡ incoming_of net.now names.now }
    ensures { result ≡ input_of net.now names.now node }
{
    let _ = net;
    let _ = names;
    match first_into(incoming, node) {
        Some(name) => Giver::Same(name),
        None => Giver::Unfed,
    }
}

fn port_giver(net: &Net, names: &[u32], incoming: &[(u32, u32)], number: u32, port: &Port) -> Giver
    requires { incoming.now ≡ incoming_of net.now names.now }
    ensures { result ≡ port_giver net.now names.now number port.now }
{
    match port.way {
        Way::Put => Giver::Port(number),
        Way::Get => input_of(net, names, incoming, port.node),
    }
}

/// The name of end a of a channel.
fn end_a(net: &Net, number: u32) -> u32
    requires { number < length net.now.channels }
    ensures { result ≡ end_a net.now number }
{
    net.ports().len() as u32 + 2 * number
}

/// The number of the cell that a channel has, if it is a FIFO1, by the list of these.
pub(crate) fn cell_number(net: &Net, cells: &[u32], number: u32) -> u32
    requires found { number < length net.now.channels }
    requires cells { cells.now ≡ cell_numbers net.now }
    ensures { result ≡ cell_of net.now number }
{
    let _ = net;
    cells[number as usize]
}

fn b_giver(
    net: &Net,
    cells: &[u32],
    names: &[u32],
    incoming: &[(u32, u32)],
    number: u32,
    channel: &Channel,
) -> Giver
    requires incoming { incoming.now ≡ incoming_of net.now names.now }
    requires found { number < length net.now.channels }
    requires cells { cells.now ≡ cell_numbers net.now }
    ensures { result ≡ b_giver net.now names.now number channel.now.b channel.now.kind }
{
    match channel.kind {
        Kind::Sync => Giver::Same(end_a(net, number)),
        Kind::Lossy => Giver::Same(end_a(net, number)),
        Kind::Drain => input_of(net, names, incoming, channel.b),
        Kind::Fifo(_) => Giver::Cell(cell_number(net, cells, number)),
        Kind::Filter(_) => Giver::Same(end_a(net, number)),
        Kind::Transform(_) => Giver::Image(number, end_a(net, number)),
    }
}

fn end_giver(
    net: &Net,
    cells: &[u32],
    names: &[u32],
    incoming: &[(u32, u32)],
    number: u32,
    is_a: bool,
    channel: &Channel,
) -> Giver
    requires incoming { incoming.now ≡ incoming_of net.now names.now }
    requires found { number < length net.now.channels }
    requires cells { cells.now ≡ cell_numbers net.now }
    ensures { result ≡ end_giver net.now names.now number is_a channel.now }
{
    if is_a {
        input_of(net, names, incoming, channel.a)
    } else {
        b_giver(net, cells, names, incoming, number, channel)
    }
}

/// Where a name has its datum from.
fn giver_of(net: &Net, cells: &[u32], names: &[u32], incoming: &[(u32, u32)], name: u32) -> Giver
    requires incoming { incoming.now ≡ incoming_of net.now names.now }
    requires cells { cells.now ≡ cell_numbers net.now }
    ensures { result ≡ giver_of net.now names.now name }
{
    let ports = net.ports().len();
    let name = name as usize;
    if name < ports {
        match at(net.ports(), name) {
            Some(port) => port_giver(net, names, incoming, name as u32, port),
            None => Giver::Unfed,
        }
    } else {
        let number = (name - ports) / 2;
        match at(net.channels(), number) {
            Some(channel) => {
                let is_a = (name - ports) % 2 == 0;
                end_giver(net, cells, names, incoming, number as u32, is_a, channel)
            }
            None => Giver::Unfed,
        }
    }
}

/// The givers of a firing's names.
pub(crate) fn givers_of(
    alloc: Global,
    net: &Net,
    cells: &[u32],
    names: &[u32],
    incoming: &[(u32, u32)],
) -> Result<Vec<Giver>, AllocError>
    requires incoming { incoming.now ≡ incoming_of net.now names.now }
    requires cells { cells.now ≡ cell_numbers net.now }
    ensures { IfOk result (λ givers. givers.items ≡ map (giver_of net.now names.now) names.now) }
{
    let mut givers = Vec::with_capacity(alloc, names.len())?;
    for name in names {
        givers.push(giver_of(net, cells, names, incoming, *name))?;
    }
    Ok(givers)
}

/// The known giver of a name, if it stands at this place among the firing's names.
fn giver_at_place(
    net: &Net,
    names: &[u32],
    known: &[Giver],
    place: usize,
    name: u32,
) -> Option<Giver>
    requires { known.now ≡ map (giver_of net.now names.now) names.now }
    ensures { IfSome result (λ giver. giver ≡ giver_of net.now names.now name) }
{
    let _ = net;
    if place < names.len() && names[place] == name {
        Some(known[place])
    } else {
        None
    }
}

/// The giver of a name, found among the firing's names if it is one of them.
fn found_giver(
    net: &Net,
    cells: &[u32],
    names: &[u32],
    incoming: &[(u32, u32)],
    known: &[Giver],
    name: u32,
) -> Giver
    requires incoming { incoming.now ≡ incoming_of net.now names.now }
    requires cells { cells.now ≡ cell_numbers net.now }
    requires known { known.now ≡ map (giver_of net.now names.now) names.now }
    ensures { result ≡ giver_of net.now names.now name }
{
    match names.binary_search(&name) {
        Ok(place) => known[place],
        Err(_) => giver_of(net, cells, names, incoming, name),
    }
}

/// Where a name has its datum from: known, if the name is one of the firing. Where all names fire, its place is its number.
pub(crate) fn known_giver(
    net: &Net,
    cells: &[u32],
    names: &[u32],
    incoming: &[(u32, u32)],
    known: &[Giver],
    places: &[usize],
    name: u32,
) -> Giver
    requires incoming { incoming.now ≡ incoming_of net.now names.now }
    requires cells { cells.now ≡ cell_numbers net.now }
    requires known { known.now ≡ map (giver_of net.now names.now) names.now }
    ensures { result ≡ giver_of net.now names.now name }
{
    let guess = at(places, name as usize).copied().unwrap_or(0);
    match giver_at_place(net, names, known, guess, name) {
        Some(giver) => giver,
        None => found_giver(net, cells, names, incoming, known, name),
    }
}
