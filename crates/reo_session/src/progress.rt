//! What was kept of a run, and whether it is done.
ghost use Rattle.std.specs.Prelude.{◌≡◌, ◌<◌, ◌≤◌, [], length, map, All, IfOk, IfSome, IsTrue, false};
ghost use Rattle.std.specs.Option.{is_none};
ghost use Rattle.reo_value.specs.Code.{IsValue};
ghost use Rattle.reo_schedule.specs.Offers.{offered_by};
ghost use Rattle.reo_schedule.specs.UnderWay.{ScriptsPutValues};
ghost use Rattle.reo_schedule.specs.Values.{BringsValues, HasMappedValues, HasValues};
ghost use Rattle.reo_session.specs.Running.{same_lengths};

use reo_guard::Fun;
use reo_net::{Channel, Kind, Net};
use reo_trace::Called;
use reo_value::{Lexicon, Op, Value, word_of};
use sqlite_items::Items;
use std::alloc::{AllocError, Global};

/// The calls of each component that were answered, and what was done last.
#[derive(Drop)]
pub(crate) struct Progress {
    pub calls: Vec<Items<Called>>,
    pub last: Last,
}

/// What the last entry did: the pairs of its step, and the places that it put and got at.
#[derive(Drop)]
pub(crate) struct Last {
    pub pairs: Vec<(u32, Value)>,
    pub puts: Vec<(u32, Value)>,
    pub gets: Vec<(u32, Value)>,
}

impl Last {
    /// Nothing was done yet.
    pub(crate) fn new(alloc: Global) -> Last {
        Last {
            pairs: Vec::new(alloc),
            puts: Vec::new(alloc),
            gets: Vec::new(alloc),
        }
    }
}

/// Whether an operation of this component was not answered.
fn waits(scripts: &[Items<Op>], calls: &[Items<Called>], component: usize) -> bool
    requires as_many { length scripts.now ≡ length calls.now }
    requires component { component < length scripts.now }
    ensures { IsTrue result → same_lengths scripts.now calls.now ≡ false }
{
    scripts[component].len() != calls[component].len()
}

/// The first component with an operation that was not answered.
fn first_waiting(scripts: &[Items<Op>], calls: &[Items<Called>]) -> Option<usize>
    requires { length scripts.now ≡ length calls.now }
    ensures { is_none result ≡ same_lengths scripts.now calls.now }
{
    for component in 0..scripts.len() {
        if scripts[component].len() != calls[component].len() {
            return Some(component);
        }
    }
    None
}

/// Whether every operation was answered. The component that waited when this was asked last is looked at first, since most often
/// it waits still.
pub(crate) fn all_answered(
    scripts: &[Items<Op>],
    calls: &[Items<Called>],
    waiting: &mut usize,
) -> bool
    requires { length scripts.now ≡ length calls.now }
    ensures { result ≡ same_lengths scripts.now calls.now }
{
    if *waiting < scripts.len() {
        if waits(scripts, calls, *waiting) {
            return false;
        }
    }
    match first_waiting(scripts, calls) {
        Some(component) => {
            *waiting = component;
            false
        }
        None => true,
    }
}

/// No calls for each of the scripts.
pub(crate) fn no_calls(
    alloc: Global,
    scripts: &[Items<Op>],
) -> Result<Vec<Items<Called>>, AllocError>
    ensures { IfOk result (λ calls. calls.items ≡ map (λ script. []) scripts.now) }
{
    let mut calls = Vec::with_capacity(alloc, scripts.len())?;
    for _script in scripts {
        calls.push(Items::new(alloc))?;
    }
    Ok(calls)
}

// The codes of values tell that they are values of the program: what follows has no other effect.

fn known(value: &Value)
    ensures { IsValue value.now }
{
    let _code = word_of(*value);
}

fn known_results(pairs: &[(Value, Value)])
    ensures { All (λ pair. IsValue pair.1) pairs.now }
{
    for pair in pairs {
        known(&pair.1);
    }
}

fn known_fun(fun: &Fun)
    ensures { HasMappedValues fun.now }
{
    match fun {
        Fun::Map(pairs) => known_results(pairs.as_slice()),
        Fun::Add(_) => {}
        Fun::Sub(_) => {}
        Fun::Mul(_) => {}
        Fun::Neg => {}
        Fun::Len => {}
    }
}

fn known_first(first: &Option<Value>)
    ensures { IfSome first.now IsValue }
{
    if let Some(value) = first {
        known(value);
    }
}

fn known_kind(kind: &Kind)
    ensures { HasValues kind.now }
{
    match kind {
        Kind::Fifo(first) => known_first(first),
        Kind::Transform(fun) => known_fun(fun),
        Kind::Sync => {}
        Kind::Lossy => {}
        Kind::Drain => {}
        Kind::Filter(_) => {}
    }
}

fn known_channels(channels: &[Channel])
    ensures { All (λ channel. HasValues channel.kind) channels.now }
{
    for channel in channels {
        known_kind(&channel.kind);
    }
}

/// What a circuit brings in are values.
pub(crate) fn known_circuit(net: &Net, texts: &Lexicon)
    ensures { BringsValues net.now texts.now }
{
    let _few = texts.len();
    known_channels(net.channels());
}

fn known_op(op: &Op)
    ensures { IfSome (offered_by op.now) IsValue }
{
    match op {
        Op::Put(_, value) => known(value),
        Op::Get(_) => {}
    }
}

fn known_script(script: &[Op])
    ensures { All (λ op. IfSome (offered_by op) IsValue) script.now }
{
    for op in script {
        known_op(op);
    }
}

fn known_each(scripts: &[Items<Op>])
    ensures { All (λ script. All (λ op. IfSome (offered_by op) IsValue) script) scripts.now }
{
    for script in scripts {
        known_script(script.as_slice());
    }
}

/// What the scripts put are values.
pub(crate) fn known_scripts(scripts: &[Items<Op>])
    ensures { ScriptsPutValues scripts.now }
{
    known_each(scripts);
}
