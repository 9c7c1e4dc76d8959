//! What a reading says of slots and facts.
ghost use Rattle.std.specs.Prelude.{◌≡◌, map, if◌then◌else◌, not, false};
ghost use Rattle.std.specs.Option.{option_and_then, option_map_or};
ghost use Rattle.reo_flow.specs.Tests.{is_met, yielded};
ghost use Rattle.reo_flow.specs.Flow.{sources_of, image_of_kind, image_at, met_by_kind, met_at, flow, is_so};
ghost use Rattle.reo_plan.specs.inside.Slots.{slot_at, slot_value};

use crate::slots::giver_at;
use crate::sources::{Sources, Words, known};
use reo_flow::{Fact, Giver};
use reo_guard::{Fun, Guard, apply, holds};
use reo_net::{Kind, Net};
use reo_value::{Lexicon, Value};
use sqlite_items::at;

fn is_met(guard: &Guard, datum: Value, texts: &Lexicon) -> bool
    ensures { result ≡ is_met texts.now guard.now datum }
{
    holds(guard, datum, texts)
}

fn yielded(fun: &Fun, datum: Value, texts: &Lexicon) -> Option<Value>
    ensures { result ≡ yielded texts.now fun.now datum }
{
    match apply(fun, datum, texts) {
        Some(value) => Some(known(&value)),
        None => None,
    }
}

fn met_by_kind(kind: &Kind, datum: Value, texts: &Lexicon) -> bool
    ensures { result ≡ met_by_kind texts.now kind.now datum }
{
    match kind {
        Kind::Sync => false,
        Kind::Lossy => false,
        Kind::Drain => false,
        Kind::Fifo(_) => false,
        Kind::Filter(guard) => is_met(guard, datum, texts),
        Kind::Transform(_) => false,
    }
}

fn met_at(net: &Net, texts: &Lexicon, number: u32, datum: Value) -> bool
    ensures { result ≡ met_at net.now texts.now number datum }
{
    match at(net.channels(), number as usize) {
        Some(channel) => met_by_kind(&channel.kind, datum, texts),
        None => false,
    }
}

fn image_of_kind(kind: &Kind, datum: Value, texts: &Lexicon) -> Option<Value>
    ensures { result ≡ image_of_kind texts.now kind.now datum }
{
    match kind {
        Kind::Sync => None,
        Kind::Lossy => None,
        Kind::Drain => None,
        Kind::Fifo(_) => None,
        Kind::Filter(_) => None,
        Kind::Transform(fun) => yielded(fun, datum, texts),
    }
}

fn image_at(net: &Net, texts: &Lexicon, number: u32, datum: Value) -> Option<Value>
    ensures { result ≡ image_at net.now texts.now number datum }
{
    match at(net.channels(), number as usize) {
        Some(channel) => image_of_kind(&channel.kind, datum, texts),
        None => None,
    }
}

fn image_of(net: &Net, texts: &Lexicon, number: u32, datum: Option<Value>) -> Option<Value>
    ensures { result ≡ option_and_then (image_at net.now texts.now number) datum }
{
    match datum {
        Some(value) => image_at(net, texts, number, value),
        None => None,
    }
}

/// What flows to a slot through so many givers.
fn flow<S: Sources>(
    net: &Net,
    texts: &Lexicon,
    sources: &S,
    slots: &[Giver],
    fuel: u64,
    slot: u32,
) -> Option<Value>
    ensures { result ≡ flow net.now texts.now (S.sources sources.now) (slot_at slots.now) fuel slot }
{
    if fuel == 0 {
        return None;
    }
    match giver_at(slots, slot) {
        Giver::Unfed => None,
        Giver::Cell(cell) => sources.in_cell(cell),
        Giver::Port(port) => sources.at_port(port),
        Giver::Same(other) => flow(net, texts, sources, slots, fuel - 1, other),
        Giver::Image(channel, other) => {
            let datum = flow(net, texts, sources, slots, fuel - 1, other);
            image_of(net, texts, channel, datum)
        }
    }
}

/// What flows to a slot through so many givers, which is found at once where its own giver is a cell or a port.
#[inline(always)]
fn flow_near<S: Sources>(
    net: &Net,
    texts: &Lexicon,
    sources: &S,
    slots: &[Giver],
    fuel: u64,
    slot: u32,
) -> Option<Value>
    ensures { result ≡ flow net.now texts.now (S.sources sources.now) (slot_at slots.now) fuel slot }
{
    if fuel == 0 {
        return None;
    }
    match giver_at(slots, slot) {
        Giver::Cell(cell) => sources.in_cell(cell),
        Giver::Port(port) => sources.at_port(port),
        _ => flow(net, texts, sources, slots, fuel, slot),
    }
}

/// What is in a slot. Most slots have what comes out of a cell or is offered at a port, or a function's answer at that.
#[inline(always)]
pub(crate) fn slot_value<S: Sources>(
    net: &Net,
    texts: &Lexicon,
    sources: &S,
    slots: &[Giver],
    slot: u32,
) -> Option<Value>
    ensures { result ≡ slot_value net.now texts.now (S.sources sources.now) slots.now slot }
{
    match giver_at(slots, slot) {
        Giver::Cell(cell) => sources.in_cell(cell),
        Giver::Port(port) => sources.at_port(port),
        Giver::Image(channel, other) => {
            let datum = flow_near(net, texts, sources, slots, u64::from(slot), other);
            image_of(net, texts, channel, datum)
        }
        _ => flow(net, texts, sources, slots, u64::from(slot) + 1, slot),
    }
}

fn is_met_in(net: &Net, texts: &Lexicon, number: u32, datum: Option<Value>, wanted: bool) -> bool
    ensures { result ≡ option_map_or (λ value. if wanted then met_at net.now texts.now number value else not (met_at net.now texts.now number value)) datum false }
{
    match datum {
        Some(value) => met_at(net, texts, number, value) == wanted,
        None => false,
    }
}

/// Whether a fact is so.
#[inline(always)]
pub(crate) fn is_so<W: Words>(
    net: &Net,
    texts: &Lexicon,
    words: &W,
    slots: &[Giver],
    fact: &Fact,
) -> bool
    ensures { result ≡ is_so net.now texts.now (W.reading words.now) (slot_value net.now texts.now (sources_of (W.reading words.now)) slots.now) fact.now }
{
    match fact {
        Fact::Offered(port) => words.is_offered(*port),
        Fact::Empty(cell) => words.is_empty(*cell),
        Fact::Known(slot) => slot_value(net, texts, words, slots, *slot).is_some(),
        Fact::Met(channel, slot) => {
            let datum = slot_value(net, texts, words, slots, *slot);
            is_met_in(net, texts, *channel, datum, true)
        }
        Fact::Failed(channel, slot) => {
            let datum = slot_value(net, texts, words, slots, *slot);
            is_met_in(net, texts, *channel, datum, false)
        }
    }
}
