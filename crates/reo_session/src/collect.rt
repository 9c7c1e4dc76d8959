//! What components offer at an engine's ports, and the answers that they collect there.
ghost use Rattle.std.specs.Prelude.{◌≡◌, ℕ, ◌+◌, ◌<◌, ◌++◌, length, slice_get, map, All, [], OnOk, Some};
ghost use Rattle.reo_value.specs.declared.op.Op.{Op as AnyOp};
ghost use Rattle.reo_value.specs.Op.{port_of};
ghost use Rattle.reo_fabric.specs.declared.port_state.PortState.TheVariants.{Idle};
ghost use Rattle.reo_fabric.specs.Engine.{port_at};
ghost use Rattle.reo_session.specs.Running.{IsPosting};
ghost use Rattle.reo_schedule.specs.Offers.{offered_by};
ghost use Rattle.reo_session.specs.Posted.{ArePosted, IsAnswered, MayCollect, MayPost, ScriptsFitFabric, WithPorts, after_own, calls_by, collected, waiting_own, waiting_with, with_posted};
ghost use Rattle.reo_session.specs.Watch.{AreAnsweredAt, HasPlacesOf, IsAsleep, IsWatch, KeepsAsleep, Knows, MayTake, TakesAnswers};

use crate::progress::Last;
use crate::watch::Watch;
use reo_fabric::{Decider, PlainEngine};
use reo_trace::Called;
use reo_value::{Op, Value};
use sqlite_items::{Items, at};
use std::alloc::AllocError;

/// The port of an operation.
fn port_of(op: &Op) -> u32
    ensures { result ≡ port_of op.now }
{
    match op {
        Op::Put(port, _) => *port,
        Op::Get(port) => *port,
    }
}

/// What an operation offers.
fn offered_by(op: &Op) -> Option<Value>
    ensures { result ≡ offered_by op.now }
{
    match op {
        Op::Put(_, value) => Some(*value),
        Op::Get(_) => None,
    }
}

/// Offers the operation at a place of a component's script at its port, where there is one.
fn post<D: Decider + Drop>(
    engine: &mut PlainEngine<D>,
    watch: &mut Watch,
    script: &[Op],
    component: usize,
    place: usize,
)
    requires may { (op : AnyOp) → slice_get script.now place ≡ Some op → MayPost engine.old.fabric engine.old.ports op }
    requires watch { IsWatch engine.old.fabric watch.old }
    requires waiting { length watch.old.waiting.items ≡ length engine.old.fabric.ports }
    ensures engine { WithPorts engine.old engine.new (with_posted engine.old.ports (slice_get script.now place)) }
    ensures places { HasPlacesOf watch.old watch.new }
    ensures waiting { watch.new.waiting.items ≡ waiting_with watch.old.waiting.items component (slice_get script.now place) }
    ensures asleep { KeepsAsleep engine.old watch.old.awake.items engine.new watch.new.awake.items }
{
    if let Some(op) = at(script, place) {
        let port = port_of(op);
        engine.post(port, offered_by(op));
        watch.wait(port, component);
    }
}

/// Takes the answer to a component's next operation, where there is one, and offers the operation behind it.
#[inline(always)]
fn collect_own<D: Decider + Drop>(
    engine: &mut PlainEngine<D>,
    watch: &mut Watch,
    own: &mut Items<Called>,
    script: &[Op],
    component: usize,
) -> Result<(), AllocError>
    requires may { MayCollect engine.old.fabric engine.old.ports (slice_get script.now (length own.old)) (slice_get script.now (length own.old + 1)) }
    requires watch { IsWatch engine.old.fabric watch.old }
    requires waiting { length watch.old.waiting.items ≡ length engine.old.fabric.ports }
    ensures own { OnOk result (own.new ≡ own.old ++ calls_by engine.old.ports (slice_get script.now (length own.old))) }
    ensures engine { OnOk result (WithPorts engine.old engine.new (after_own engine.old.ports (slice_get script.now (length own.old)) (slice_get script.now (length own.old + 1)))) }
    ensures places { OnOk result (HasPlacesOf watch.old watch.new) }
    ensures waiting { OnOk result (watch.new.waiting.items ≡ waiting_own engine.old.ports watch.old.waiting.items component (slice_get script.now (length own.old)) (slice_get script.now (length own.old + 1))) }
    ensures asleep { OnOk result (KeepsAsleep engine.old watch.old.awake.items engine.new watch.new.awake.items) }
{
    let place = own.len();
    let Some(op) = at(script, place) else {
        return Ok(());
    };
    let Some((value, number)) = engine.answer(port_of(op)) else {
        return Ok(());
    };
    own.push(Called {
        op: *op,
        value,
        number,
    })?;
    post(engine, watch, script, component, place + 1);
    Ok(())
}

/// Takes the answer at a port, where there is one, for the component that waits there, and offers its operation behind.
#[inline(always)]
fn collect_at<D: Decider + Drop>(
    engine: &mut PlainEngine<D>,
    watch: &mut Watch,
    calls: &mut [Items<Called>],
    scripts: &[Items<Op>],
    port: u32,
) -> Result<(), AllocError>
    requires { MayTake scripts.now engine.old watch.old calls.old }
    ensures takes { OnOk result (TakesAnswers scripts.now engine.old watch.old calls.old engine.new watch.new calls.new) }
    ensures cleared { OnOk result (IsAnswered engine.new.ports port → ⊥) }
{
    let Some(component) = at(&watch.waiting, port as usize) else {
        return Ok(());
    };
    let component = *component;
    if component >= scripts.len() {
        return Ok(());
    }
    let script = scripts[component].as_slice();
    collect_own(engine, watch, &mut calls[component], script, component)?;
    Ok(())
}

/// Takes all answers at these ports.
#[inline(always)]
fn collect_from<D: Decider + Drop>(
    engine: &mut PlainEngine<D>,
    watch: &mut Watch,
    calls: &mut [Items<Called>],
    scripts: &[Items<Op>],
    places: &[(u32, Value)],
) -> Result<(), AllocError>
    requires { MayTake scripts.now engine.old watch.old calls.old }
    ensures takes { OnOk result (TakesAnswers scripts.now engine.old watch.old calls.old engine.new watch.new calls.new) }
    ensures cleared { OnOk result (All (λ place. IsAnswered engine.new.ports place.0 → ⊥) places.now) }
{
    for place in places {
        collect_at(engine, watch, calls, scripts, place.0)?;
    }
    Ok(())
}

/// Takes the answers at the places of the last entry, and offers the operations that are next then.
fn collect_both<D: Decider + Drop>(
    engine: &mut PlainEngine<D>,
    watch: &mut Watch,
    calls: &mut [Items<Called>],
    scripts: &[Items<Op>],
    last: &Last,
) -> Result<(), AllocError>
    requires may { MayTake scripts.now engine.old watch.old calls.old }
    requires answered { AreAnsweredAt last.now.puts.items last.now.gets.items engine.old.ports }
    ensures as_many { OnOk result (length calls.new ≡ length calls.old) }
    ensures takes { OnOk result (TakesAnswers scripts.now engine.old watch.old calls.old engine.new watch.new calls.new) }
    ensures calls { OnOk result (calls.new ≡ collected scripts.now engine.old.ports calls.old) }
    ensures posted { OnOk result (ArePosted scripts.now calls.new engine.new.ports) }
{
    collect_from(engine, watch, calls, scripts, last.puts.as_slice())?;
    collect_from(engine, watch, calls, scripts, last.gets.as_slice())?;
    Ok(())
}

/// The same of all components' calls.
pub(crate) fn collect<D: Decider + Drop>(
    engine: &mut PlainEngine<D>,
    watch: &mut Watch,
    calls: &mut Vec<Items<Called>>,
    scripts: &[Items<Op>],
    last: &Last,
) -> Result<(), AllocError>
    requires may { MayTake scripts.now engine.old watch.old calls.old.items }
    requires answered { AreAnsweredAt last.now.puts.items last.now.gets.items engine.old.ports }
    ensures takes { OnOk result (TakesAnswers scripts.now engine.old watch.old calls.old.items engine.new watch.new calls.new.items) }
    ensures calls { OnOk result (calls.new.items ≡ collected scripts.now engine.old.ports calls.old.items) }
    ensures posted { OnOk result (ArePosted scripts.now calls.new.items engine.new.ports) }
{
    collect_both(engine, watch, calls, scripts, last)?;
    Ok(())
}

/// Offers the first operation of each component.
pub(crate) fn post_first<D: Decider + Drop>(
    engine: &mut PlainEngine<D>,
    watch: &mut Watch,
    scripts: &[Items<Op>],
)
    requires fit { ScriptsFitFabric engine.old.fabric scripts.now }
    requires long { length engine.old.ports ≡ length engine.old.fabric.ports }
    requires idle { (port : ℕ) → port_at engine.old.ports port ≡ Idle }
    requires watch { IsWatch engine.old.fabric watch.old }
    requires waiting { length watch.old.waiting.items ≡ length engine.old.fabric.ports }
    requires awake { (region : ℕ) → IsAsleep watch.old.awake.items region → ⊥ }
    ensures posted { IsPosting scripts.now (length scripts.now) (length engine.old.ports) engine.new.ports }
    ensures engine { WithPorts engine.old engine.new engine.new.ports }
    ensures watch { IsWatch engine.old.fabric watch.new }
    ensures waiting { length watch.new.waiting.items ≡ length engine.old.fabric.ports }
    ensures knows { Knows scripts.now (map (λ script. []) scripts.now) watch.new.waiting.items }
    ensures awake { (region : ℕ) → IsAsleep watch.new.awake.items region → ⊥ }
{
    for component in 0..scripts.len() {
        post(engine, watch, scripts[component].as_slice(), component, 0);
    }
}
