//! Whether a step is one of the product, by its definition alone: slow, and without a table.
ghost use Rattle.std.specs.Prelude.{◌≡◌, ℕ, ◌+◌, ◌*◌, ◌<◌, ◌↔◌, length, map, All, Some, slice_index_or, count_by, nat_eq, IsTrue, MatchOption};
ghost use Rattle.std.specs.List.Sorted.{IsStrictlyIncreasing};
ghost use Rattle.std.specs.Map.{lookup};
ghost use Rattle.reo_net.specs.Names.{IsIncoming, IsOutgoing, IsNameOf};
ghost use Rattle.reo_net.specs.Kind.{is_fifo};
ghost use Rattle.reo_net.specs.Steps.{datum, content, IsStep, NodeStays, NodeStep, ChannelAllows, NodeAllows, ProductStep};
ghost use Rattle.reo_net.specs.Parts.{IsAlone, AllGet, IsInput};

use crate::circuit::{Channel, Step};
use crate::kind::same;
use crate::net::Net;
use crate::stand::{Stand, stand_of};
use reo_value::{Lexicon, Value};

fn datum_among(pairs: &[(u32, Value)], name: u32) -> Option<Value>
    ensures { result ≡ lookup (nat_eq name) pairs.now }
{
    for pair in pairs {
        if pair.0 == name {
            return Some(pair.1);
        }
    }
    None
}

/// The datum that the step has at a name.
pub fn datum_at(step: &Step, name: u32) -> Option<Value>
    ensures { result ≡ datum step.now name }
{
    datum_among(step.pairs.as_slice(), name)
}

fn is_rising(pairs: &[(u32, Value)]) -> bool
    ensures { IsTrue result ↔ IsStrictlyIncreasing (map (λ p. p.0) pairs.now) }
{
    for next in 1..pairs.len() {
        if pairs[next - 1].0 >= pairs[next].0 {
            return false;
        }
    }
    true
}

fn are_below(pairs: &[(u32, Value)], names: u32) -> bool
    ensures { IsTrue result ↔ All (λ p. p.0 < names) pairs.now }
{
    pairs.iter().all(|pair| pair.0 < names)
}

/// Whether it is a nonempty rising list of the circuit's names.
pub fn is_step(net: &Net, step: &Step) -> bool
    ensures { IsTrue result ↔ IsStep net.now step.now }
{
    let pairs = step.pairs.as_slice();
    if pairs.is_empty() {
        return false;
    }
    is_rising(pairs) && are_below(pairs, net.names())
}

// What the state has at this place, or none.
fn held_at(state: &[Option<Value>], place: usize) -> Option<Value>
    ensures { result ≡ slice_index_or state.now place None }
{
    if place < state.len() {
        state[place]
    } else {
        None
    }
}

// How many of these channels are FIFO1s.
fn fifos_in(channels: &[Channel]) -> usize
    ensures { result ≡ count_by (λ channel. is_fifo channel.kind) channels.now }
{
    channels
        .iter()
        .filter(|channel| channel.kind.is_fifo())
        .count()
}

// What channel `number`, which is this one, holds in a state.
fn content(net: &Net, number: usize, channel: &Channel, state: &[Option<Value>]) -> Option<Value>
    requires { number < length net.now.channels }
    ensures { result ≡ content net.now number channel.now.kind state.now }
{
    if channel.kind.is_fifo() {
        held_at(state, fifos_in(&net.channels()[..number]))
    } else {
        None
    }
}

/// Whether channel `number` has no name in the step and stays, or makes what the step has at its names.
pub fn channel_allows(
    net: &Net,
    texts: &Lexicon,
    number: usize,
    old: &[Option<Value>],
    step: &Step,
    new: &[Option<Value>],
) -> bool
    requires { number < length net.now.channels }
    ensures { IsTrue result ↔ ChannelAllows net.now texts.now number old.now (datum step.now) new.now }
{
    let channel = &net.channels()[number];
    let end_a = (net.ports().len() + 2 * number) as u32;
    let a = datum_at(step, end_a);
    let b = datum_at(step, end_a + 1);
    let was = content(net, number, channel, old);
    let is = content(net, number, channel, new);
    if a.is_none() && b.is_none() {
        same(is, was)
    } else {
        channel.kind.allows(texts, was, a, b, is)
    }
}

fn channels_allow(
    net: &Net,
    texts: &Lexicon,
    old: &[Option<Value>],
    step: &Step,
    new: &[Option<Value>],
) -> bool
    ensures { IsTrue result ↔ ((k : ℕ) → ChannelAllows net.now texts.now k old.now (datum step.now) new.now) }
{
    for number in 0..net.channels().len() {
        if !channel_allows(net, texts, number, old, step, new) {
            return false;
        }
    }
    true
}

fn stands_so(found: Option<Stand>, wanted: Stand) -> bool
    ensures { IsTrue result ↔ (found ≡ Some wanted) }
{
    found == Some(wanted)
}

fn is_incoming(net: &Net, node: u32, name: u32) -> bool
    ensures { IsTrue result ↔ IsIncoming net.now node name }
{
    let incoming = Stand {
        node,
        incoming: true,
    };
    stands_so(stand_of(net, name), incoming)
}

fn is_outgoing(net: &Net, node: u32, name: u32) -> bool
    ensures { IsTrue result ↔ IsOutgoing net.now node name }
{
    let outgoing = Stand {
        node,
        incoming: false,
    };
    stands_so(stand_of(net, name), outgoing)
}

fn is_name_of(net: &Net, node: u32, name: u32) -> bool
    ensures { IsTrue result ↔ IsNameOf net.now node name }
{
    is_incoming(net, node, name) || is_outgoing(net, node, name)
}

// Whether no name of the node is in the step.
fn is_quiet(net: &Net, node: u32, step: &Step) -> bool
    ensures { IsTrue result ↔ NodeStays net.now node (datum step.now) }
{
    for name in 0..net.names() {
        if is_name_of(net, node, name) && datum_at(step, name).is_some() {
            return false;
        }
    }
    true
}

// An incoming name of the node that fires.
fn firing_input(net: &Net, node: u32, step: &Step) -> Option<u32>
    ensures { MatchOption result ((name : ℕ) → IsInput net.now node (datum step.now) name → ⊥) (IsInput net.now node (datum step.now)) }
{
    for name in 0..net.names() {
        if is_incoming(net, node, name) && datum_at(step, name).is_some() {
            return Some(name);
        }
    }
    None
}

fn has_output(net: &Net, node: u32) -> bool
    ensures { IsTrue result ↔ ((name : ℕ) × IsOutgoing net.now node name) }
{
    for name in 0..net.names() {
        if is_outgoing(net, node, name) {
            return true;
        }
    }
    false
}

// Whether no other incoming name of the node fires.
fn is_alone(net: &Net, node: u32, step: &Step, input: u32) -> bool
    ensures { IsTrue result ↔ IsAlone net.now node (datum step.now) input }
{
    for name in 0..net.names() {
        if name != input && is_incoming(net, node, name) && datum_at(step, name).is_some() {
            return false;
        }
    }
    true
}

// Whether the step has this datum at each outgoing name of the node.
fn all_get(net: &Net, node: u32, step: &Step, wanted: &Option<Value>) -> bool
    ensures { IsTrue result ↔ AllGet net.now node (datum step.now) wanted.now }
{
    for name in 0..net.names() {
        if is_outgoing(net, node, name) {
            let got = datum_at(step, name);
            if !same(got, *wanted) {
                return false;
            }
        }
    }
    true
}

fn is_node_step(net: &Net, node: u32, step: &Step) -> bool
    ensures { IsTrue result ↔ NodeStep net.now node (datum step.now) }
{
    let Some(input) = firing_input(net, node, step) else {
        return false;
    };
    let Some(value) = datum_at(step, input) else {
        return false;
    };
    if !has_output(net, node) {
        return false;
    }
    is_alone(net, node, step, input) && all_get(net, node, step, &Some(value))
}

/// Whether no name of the node is in the step, or one that comes in and all that go out, where some go out, with one datum.
pub fn node_allows(net: &Net, node: u32, step: &Step) -> bool
    ensures { IsTrue result ↔ NodeAllows net.now node (datum step.now) }
{
    is_quiet(net, node, step) || is_node_step(net, node, step)
}

fn nodes_allow(net: &Net, step: &Step) -> bool
    ensures { IsTrue result ↔ ((node : ℕ) → node < net.now.nodes → NodeAllows net.now node (datum step.now)) }
{
    for node in 0..net.nodes() {
        if !node_allows(net, node, step) {
            return false;
        }
    }
    true
}

/// Whether the step is one of the product, from the one list to the other. Lists of any length are taken.
pub fn is_product_step(
    net: &Net,
    texts: &Lexicon,
    old: &[Option<Value>],
    step: &Step,
    new: &[Option<Value>],
) -> bool
    ensures { IsTrue result ↔ ProductStep net.now texts.now old.now step.now new.now }
{
    let cells = fifos_in(net.channels());
    if old.len() != cells || new.len() != cells || !is_step(net, step) {
        return false;
    }
    channels_allow(net, texts, old, step, new) && nodes_allow(net, step)
}
