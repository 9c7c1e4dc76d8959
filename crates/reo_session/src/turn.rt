//! The next turn of the plain schedule.
ghost use Rattle.std.specs.Prelude.{◌≡◌, ℕ, ◌<◌, ◌≤◌, ◌^◌, length, None, Some, IfSome, IfNone, OnOk, true, false};
ghost use Rattle.reo_fabric.specs.declared.entry.Entry.{Entry as AnyEntry};
ghost use Rattle.reo_fabric.specs.Engine.{Fires, engine_reading};
ghost use Rattle.reo_session.specs.Turn.{FiresFirst, AreQuiet, KeepsOne};
ghost use Rattle.reo_session.specs.Running.{FiresNext};
ghost use Rattle.reo_session.specs.Watch.{AsleepAreQuiet, WakesFor};

use crate::progress::Last;
use crate::steps::Stepper;
use crate::watch::{Watch, skip_asleep};
use reo_fabric::{Decider, PlainEngine};
use reo_trace::Recorder;
use reo_value::Value;
use std::alloc::AllocError;

/// A region fires, where it can; else it is asleep from now on.
fn try_region<D: Decider + Drop>(
    engine: &mut PlainEngine<D>,
    awake: &mut Vec<bool>,
    region: u32,
) -> bool
    requires region { region < engine.old.fabric.regions }
    requires awake { length awake.old.items ≡ engine.old.fabric.regions }
    requires few { engine.old.count < 2 ^ 63 }
    requires asleep { AsleepAreQuiet (D.first_choice engine.old.decider) engine.old awake.old.items }
    ensures quiet { result ≡ false → engine.new ≡ engine.old }
    ensures none { result ≡ false → D.first_choice engine.old.decider region (engine_reading engine.old region) ≡ None }
    ensures fires { result ≡ true → (number : ℕ) × Fires (D.allows engine.old.decider) (D.first_choice engine.old.decider) region engine.old engine.new number }
    ensures long { length awake.new.items ≡ length awake.old.items }
    ensures asleep { AsleepAreQuiet (D.first_choice engine.old.decider) engine.old awake.new.items }
{
    let fires = engine.step(region).is_some();
    if !fires {
        awake[region as usize] = false;
    }
    fires
}

/// The first region from one number up to another that can fire fires.
fn fire_between<D: Decider + Drop>(
    engine: &mut PlainEngine<D>,
    awake: &mut Vec<bool>,
    from: u32,
    to: u32,
) -> Option<u32>
    requires from { from ≤ to }
    requires to { to ≤ engine.old.fabric.regions }
    requires awake { length awake.old.items ≡ engine.old.fabric.regions }
    requires few { engine.old.count < 2 ^ 63 }
    requires asleep { AsleepAreQuiet (D.first_choice engine.old.decider) engine.old awake.old.items }
    ensures quiet { IfNone result (engine.new ≡ engine.old) }
    ensures none { IfNone result (AreQuiet (D.first_choice engine.old.decider) engine.old from to) }
    ensures fires { IfSome result (λ region. (region < to) × FiresFirst (D.allows engine.old.decider) (D.first_choice engine.old.decider) engine.old engine.new from region) }
    ensures long { length awake.new.items ≡ length awake.old.items }
    ensures asleep { AsleepAreQuiet (D.first_choice engine.old.decider) engine.old awake.new.items }
{
    let mut region = skip_asleep(awake, from, to);
    while region < to {
        if try_region(engine, awake, region) {
            return Some(region);
        }
        region = skip_asleep(awake, region + 1, to);
    }
    None
}

/// The first region that can fire, in cyclic order from a place on, fires.
pub(crate) fn fire_next<D: Decider + Drop>(
    engine: &mut PlainEngine<D>,
    awake: &mut Vec<bool>,
    regions: u32,
    place: u32,
) -> Option<u32>
    requires regions { regions ≡ engine.old.fabric.regions }
    requires place { place ≤ regions }
    requires awake { length awake.old.items ≡ engine.old.fabric.regions }
    requires few { engine.old.count < 2 ^ 63 }
    requires asleep { AsleepAreQuiet (D.first_choice engine.old.decider) engine.old awake.old.items }
    ensures quiet { IfNone result (engine.new ≡ engine.old) }
    ensures none { IfNone result (AreQuiet (D.first_choice engine.old.decider) engine.old 0 engine.old.fabric.regions) }
    ensures fires { IfSome result (FiresNext (D.allows engine.old.decider) (D.first_choice engine.old.decider) engine.old engine.new place) }
    ensures long { length awake.new.items ≡ length awake.old.items }
    ensures asleep { AsleepAreQuiet (D.first_choice engine.old.decider) engine.old awake.new.items }
{
    if let Some(region) = fire_between(engine, awake, place, regions) {
        return Some(region);
    }
    fire_between(engine, awake, 0, place)
}

/// Makes a list the same as these places, which are few.
#[inline(always)]
fn copy_places(list: &mut Vec<(u32, Value)>, places: &[(u32, Value)]) -> Result<(), AllocError>
    ensures { OnOk result (list.new.items ≡ places.now) }
{
    list.clear();
    for place in places {
        list.push(*place)?;
    }
    Ok(())
}

/// Keeps the step of the engine's last entry, wakes the regions that have places of it, and tells where it is answered.
pub(crate) fn keep_step<P: Stepper, R: Recorder>(
    engine: &PlainEngine<&P>,
    watch: &mut Watch,
    plan: &P,
    recorder: &mut R,
    last: &mut Last,
) -> Result<(), AllocError>
    requires last { (entry : AnyEntry) × (engine.now.last ≡ Some entry) × P.may_step plan.now entry }
    ensures step { OnOk result ((entry : AnyEntry) → engine.now.last ≡ Some entry → KeepsOne (λ start. R.has_kept start recorder.old) (λ start. R.has_kept start recorder.new) (P.has_step plan.now entry)) }
    ensures wakes { OnOk result ((entry : AnyEntry) → engine.now.last ≡ Some entry → WakesFor entry watch.old watch.new) }
    ensures puts { OnOk result ((entry : AnyEntry) → engine.now.last ≡ Some entry → last.new.puts.items ≡ entry.puts) }
    ensures gets { OnOk result ((entry : AnyEntry) → engine.now.last ≡ Some entry → last.new.gets.items ≡ entry.gets) }
{
    let entry = engine.last().unwrap();
    plan.step_into(&entry, &mut last.pairs)?;
    recorder.keep(last.pairs.as_slice())?;
    watch.wake_for(&entry);
    copy_places(&mut last.puts, entry.puts())?;
    copy_places(&mut last.gets, entry.gets())
}
