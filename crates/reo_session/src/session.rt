//! One whole run on one thread.
ghost use Rattle.std.specs.Prelude.{◌≡◌, ◌≤◌, ◌^◌, [], None, replicate, IfOk};
ghost use Rattle.reo_net.specs.Scripts.{ScriptsFit};
ghost use Rattle.reo_schedule.specs.Plain.{IsPlainReport};
ghost use Rattle.reo_trace.specs.Lawful.{IsLawfulReport};
ghost use Rattle.reo_session.specs.Plan.{GoesByTables};
ghost use Rattle.reo_session.specs.Prepared.{IsPrepared};
ghost use Rattle.reo_session.specs.Session.{Reports, firings_of};
ghost use Rattle.reo_session.specs.Text.{IsTextOfRun};

use crate::preparation::Prepared;
use crate::progress::{known_circuit, known_scripts};
use crate::schedule::{Board, Ended, run};
use crate::steps::Stepper;
use reo_plan::{compile, fabric};
use reo_trace::{Ending, Recorder, Report, ReportLines, StepList};
use reo_value::{Lexicon, Op};
use sqlite_items::Items;
use std::alloc::{AllocError, Global};

/// No party for each of so many ports.
fn no_owners(alloc: Global, ports: usize) -> Result<Vec<Option<u32>>, AllocError>
    ensures { IfOk result (λ owners. owners.items ≡ replicate ports None) }
{
    let owners = vec![in alloc; None; ports]?;
    Ok(owners)
}

/// Runs scripts on a prepared circuit, on one thread, as a plan by its tables chooses, and has the steps kept. The regions fire in
/// turn: each turn goes to the first that can fire, in cyclic order from the one behind the last that fired, and it fires the
/// first firing of its table that is allowed.
pub fn session_by<P: Stepper, R: Recorder>(
    alloc: Global,
    prepared: &Prepared,
    texts: &Lexicon,
    scripts: &[Items<Op>],
    limit: u64,
    plan: &P,
    recorder: &mut R,
) -> Result<Ended, AllocError>
    requires prepared { IsPrepared prepared.now.net prepared.now }
    requires fit { ScriptsFit prepared.now.net scripts.now }
    requires some { 1 ≤ limit }
    requires few { limit ≤ 2 ^ 63 }
    requires plan { GoesByTables prepared.now.net texts.now (firings_of prepared.now.tables) (P.allows plan.now) (P.first_choice plan.now) (P.may_step plan.now) (P.has_step plan.now) }
    requires none { R.has_kept recorder.old recorder.old [] }
    ensures plain { IfOk result (λ ended. Reports prepared.now.net texts.now scripts.now limit (R.has_kept recorder.old recorder.new) ended.calls ended.ending) }
{
    known_circuit(&prepared.net, texts);
    known_scripts(scripts);
    let owners = no_owners(alloc, prepared.net.ports().len())?;
    let fabric = fabric(alloc, &prepared.net, &prepared.cut, &owners, 0)?;
    let board = Board {
        net: &prepared.net,
        texts,
        scripts,
        tables: prepared.tables.as_slice(),
        regions: fabric.regions,
        limit,
    };
    run(alloc, board, fabric, plan, recorder)
}

/// Runs scripts by the plan of a prepared circuit, and has the steps kept.
fn run_prepared<R: Recorder>(
    alloc: Global,
    prepared: &Prepared,
    texts: &Lexicon,
    scripts: &[Items<Op>],
    limit: u64,
    recorder: &mut R,
) -> Result<Ended, AllocError>
    requires prepared { IsPrepared prepared.now.net prepared.now }
    requires fit { ScriptsFit prepared.now.net scripts.now }
    requires some { 1 ≤ limit }
    requires few { limit ≤ 2 ^ 63 }
    requires none { R.has_kept recorder.old recorder.old [] }
    ensures plain { IfOk result (λ ended. Reports prepared.now.net texts.now scripts.now limit (R.has_kept recorder.old recorder.new) ended.calls ended.ending) }
{
    let plan = compile(
        alloc,
        &prepared.net,
        texts,
        &prepared.cut,
        prepared.tables.as_slice(),
    )?;
    session_by(alloc, prepared, texts, scripts, limit, &plan, recorder)
}

/// Runs scripts on a prepared circuit, on one thread, by the plain schedule. The regions fire in turn: each turn goes to the first
/// that can fire, in cyclic order from the one behind the last that fired, and it fires the first firing of its table that is
/// allowed.
pub fn plain_session(
    alloc: Global,
    prepared: &Prepared,
    texts: &Lexicon,
    scripts: &[Items<Op>],
    limit: u64,
) -> Result<Report, AllocError>
    requires prepared { IsPrepared prepared.now.net prepared.now }
    requires fit { ScriptsFit prepared.now.net scripts.now }
    requires some { 1 ≤ limit }
    requires few { limit ≤ 2 ^ 63 }
    ensures lawful { IfOk result (IsLawfulReport prepared.now.net texts.now scripts.now limit) }
    ensures plain { IfOk result (IsPlainReport prepared.now.net texts.now scripts.now limit) }
{
    let mut steps = StepList::new(alloc);
    let ended = run_prepared(alloc, prepared, texts, scripts, limit, &mut steps)?;
    Ok(Report {
        steps: steps.into_steps(),
        calls: ended.calls,
        ending: ended.ending,
    })
}

/// The text of a run's report, and how the run ended.
#[derive(Drop)]
pub struct ReportText {
    pub bytes: Vec<u8>,
    pub ending: Ending,
}

/// Runs scripts as `plain_session` does, and makes the text of the report as the steps fire: no list of steps is kept. It takes the
/// names of the nodes and of the components.
pub fn plain_text(
    alloc: Global,
    prepared: &Prepared,
    nodes: &Lexicon,
    texts: &Lexicon,
    people: &Lexicon,
    scripts: &[Items<Op>],
    limit: u64,
) -> Result<ReportText, AllocError>
    requires prepared { IsPrepared prepared.now.net prepared.now }
    requires fit { ScriptsFit prepared.now.net scripts.now }
    requires some { 1 ≤ limit }
    requires few { limit ≤ 2 ^ 63 }
    ensures { IfOk result (IsTextOfRun prepared.now.net nodes.now texts.now people.now scripts.now limit) }
{
    let mut lines = ReportLines::new(alloc, &prepared.net, nodes, texts)?;
    let ended = run_prepared(alloc, prepared, texts, scripts, limit, &mut lines)?;
    let bytes = lines.end(people, ended.calls.as_slice(), ended.ending)?;
    Ok(ReportText {
        bytes,
        ending: ended.ending,
    })
}
