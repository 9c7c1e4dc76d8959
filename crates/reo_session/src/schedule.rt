//! The plain schedule: one thread, the regions in turn.
ghost use Rattle.std.specs.Prelude.{◌≡◌, ℕ, ◌+◌, ◌<◌, ◌≤◌, ◌^◌, List, [], length, map, Some, IfSome, IfNone, IfOk, OnOk};
ghost use Rattle.reo_fabric.specs.declared.fabric.Fabric.{Fabric as AnyFabric};
ghost use Rattle.reo_fabric.specs.Decider.{Fits};
ghost use Rattle.reo_fabric.specs.Fabric.{IsLawfulFabric};
ghost use Rattle.reo_fabric.specs.Engine.{started};
ghost use Rattle.reo_flow.specs.Allows.{Table as AnyTable};
ghost use Rattle.reo_trace.specs.Lawful.{AllAnswered};
ghost use Rattle.reo_session.specs.Turn.{AreQuiet};
ghost use Rattle.reo_session.specs.Running.{IsRunning, any_steps, same_lengths};
ghost use Rattle.reo_session.specs.Session.{IsSet, Reports, firings_of};
ghost use Rattle.reo_session.specs.Watch.{IsWatching};

use crate::collect::{collect, post_first};
use crate::progress::{Last, Progress, all_answered, no_calls};
use crate::steps::Stepper;
use crate::turn::{fire_next, keep_step};
use crate::watch::Watch;
use reo_fabric::{Fabric, PlainEngine};
use reo_net::Net;
use reo_product::RegionTable;
use reo_trace::{Called, Ending, Recorder};
use reo_value::{Lexicon, Op};
use sqlite_items::Items;
use std::alloc::{AllocError, Global};

/// What a run goes by.
#[derive(Clone, Copy)]
pub(crate) struct Board<'a> {
    pub net: &'a Net,
    pub texts: &'a Lexicon,
    pub scripts: &'a [Items<Op>],
    pub tables: &'a [RegionTable],
    pub regions: u32,
    pub limit: u64,
}

/// How a run ended: the calls of each component that were answered, and why it goes no further.
#[derive(Drop)]
pub struct Ended {
    pub calls: Items<Items<Called>>,
    pub ending: Ending,
}

/// A turn: the first region that can fire, in cyclic order from a place on, fires, and its answers are collected. The answer is
/// the place behind it, or `None` where none can.
fn turn<P: Stepper, R: Recorder>(
    engine: &mut PlainEngine<&P>,
    watch: &mut Watch,
    progress: &mut Progress,
    recorder: &mut R,
    board: Board<'_>,
    plan: &P,
    place: u32,
) -> Result<Option<u32>, AllocError>
    requires set { IsSet board.net.now board.texts.now board.scripts.now engine.old.fabric (firings_of board.tables.now) (P.allows plan.now) (P.first_choice plan.now) (P.may_step plan.now) (P.has_step plan.now) }
    requires regions { board.regions ≡ engine.old.fabric.regions }
    requires chooser { engine.old.decider.now ≡ plan.now }
    requires few { board.limit ≤ 2 ^ 63 }
    requires left { AllAnswered board.scripts.now progress.old.calls.items → ⊥ }
    requires below { engine.old.count < board.limit }
    requires watching { IsWatching (P.first_choice plan.now) board.scripts.now engine.old watch.old progress.old.calls.items }
    requires running { IsRunning board.net.now board.texts.now board.scripts.now engine.old.fabric (firings_of board.tables.now) board.limit engine.old.decider engine.old any_steps progress.old.calls.items place }
    ensures running { IfOk result (λ next. IfSome next (λ after. (start : R) → IsRunning board.entry.net.now board.entry.texts.now board.entry.scripts.now engine.old.fabric (firings_of board.entry.tables.now) board.entry.limit engine.old.decider engine.old (R.has_kept start recorder.old) progress.old.calls.items place → IsRunning board.entry.net.now board.entry.texts.now board.entry.scripts.now engine.old.fabric (firings_of board.entry.tables.now) board.entry.limit engine.old.decider engine.new (R.has_kept start recorder.new) progress.new.calls.items after)) }
    ensures watching { IfOk result (λ next. IfSome next (λ _. IsWatching (P.first_choice plan.now) board.entry.scripts.now engine.new watch.new progress.new.calls.items)) }
    ensures one_step { IfOk result (λ next. IfSome next (λ _. engine.new.count ≡ engine.old.count + 1)) }
    ensures quiet { IfOk result (λ next. IfNone next (AreQuiet (P.first_choice plan.now) engine.new 0 board.entry.regions)) }
    ensures same_engine { IfOk result (λ next. IfNone next (engine.new ≡ engine.old)) }
    ensures same_steps { IfOk result (λ next. IfNone next (recorder.new ≡ recorder.old)) }
    ensures same_calls { IfOk result (λ next. IfNone next (progress.new.calls.items ≡ progress.old.calls.items)) }
{
    let Some(region) = fire_next(engine, &mut watch.awake, board.regions, place) else {
        return Ok(None);
    };
    keep_step(engine, watch, plan, recorder, &mut progress.last)?;
    collect(
        engine,
        watch,
        &mut progress.calls,
        board.scripts,
        &progress.last,
    )?;
    Ok(Some(region + 1))
}

/// Goes on until every operation is answered, no region can fire, or the steps are as many as the limit.
fn run_on<P: Stepper, R: Recorder>(
    engine: &mut PlainEngine<&P>,
    watch: &mut Watch,
    progress: &mut Progress,
    recorder: &mut R,
    board: Board<'_>,
    plan: &P,
) -> Result<Ending, AllocError>
    requires set { IsSet board.net.now board.texts.now board.scripts.now engine.old.fabric (firings_of board.tables.now) (P.allows plan.now) (P.first_choice plan.now) (P.may_step plan.now) (P.has_step plan.now) }
    requires regions { board.regions ≡ engine.old.fabric.regions }
    requires chooser { engine.old.decider.now ≡ plan.now }
    requires some { 1 ≤ board.limit }
    requires few { board.limit ≤ 2 ^ 63 }
    requires first { engine.old.count ≡ 0 }
    requires watching { IsWatching (P.first_choice plan.now) board.scripts.now engine.old watch.old progress.old.calls.items }
    requires running { IsRunning board.net.now board.texts.now board.scripts.now engine.old.fabric (firings_of board.tables.now) board.limit engine.old.decider engine.old (R.has_kept recorder.old recorder.old) progress.old.calls.items 0 }
    ensures plain { IfOk result (Reports board.entry.net.now board.entry.texts.now board.entry.scripts.now board.entry.limit (R.has_kept recorder.old recorder.new) progress.new.calls.items) }
{
    let mut place = 0;
    let mut waiting = 0;
    for _turn in 0..board.limit {
        if all_answered(board.scripts, &progress.calls, &mut waiting) {
            return Ok(Ending::Done);
        }
        match turn(engine, watch, progress, recorder, board, plan, place)? {
            Some(next) => place = next,
            None => return Ok(Ending::Stuck),
        }
    }
    if all_answered(board.scripts, &progress.calls, &mut waiting) {
        Ok(Ending::Done)
    } else {
        Ok(Ending::Limit)
    }
}

/// Runs the components' scripts on a fabric, on one thread, as the plan chooses. The regions fire in turn: each turn goes to the
/// first that can fire, in cyclic order from the one behind the last that fired.
pub(crate) fn run<P: Stepper, R: Recorder>(
    alloc: Global,
    board: Board<'_>,
    fabric: Fabric,
    plan: &P,
    recorder: &mut R,
) -> Result<Ended, AllocError>
    requires set { IsSet board.net.now board.texts.now board.scripts.now fabric (firings_of board.tables.now) (P.allows plan.now) (P.first_choice plan.now) (P.may_step plan.now) (P.has_step plan.now) }
    requires lawful { IsLawfulFabric fabric }
    requires fits { Fits fabric (P.allows plan.now) }
    requires regions { board.regions ≡ fabric.regions }
    requires some { 1 ≤ board.limit }
    requires few { board.limit ≤ 2 ^ 63 }
    requires none { R.has_kept recorder.old recorder.old [] }
    ensures plain { IfOk result (λ ended. Reports board.entry.net.now board.entry.texts.now board.entry.scripts.now board.entry.limit (R.has_kept recorder.old recorder.new) ended.calls ended.ending) }
{
    let mut watch = Watch::new(alloc, &fabric)?;
    let mut engine = PlainEngine::start(alloc, fabric, plan)?;
    post_first(&mut engine, &mut watch, board.scripts);
    let mut progress = Progress {
        calls: no_calls(alloc, board.scripts)?,
        last: Last::new(alloc),
    };
    let ending = run_on(
        &mut engine,
        &mut watch,
        &mut progress,
        recorder,
        board,
        plan,
    )?;
    Ok(Ended {
        calls: Items::from_vec(progress.calls),
        ending,
    })
}
