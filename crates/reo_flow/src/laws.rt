//! Laws about the definitions, each a function that does nothing.
ghost use Rattle.reo_flow.specs.Laws.{EntriesAreSteps, HistoriesAreRuns, OneEntryAtMost, OneStepAtMost, PlannedAreAllowed, PlannedIsFirst};

/// For one reading and one firing at most one entry is allowed, which has one step.
pub fn readings_allow_one_entry_a_firing()
    ensures entry { OneEntryAtMost }
    ensures step { OneStepAtMost }
{}

/// The step of an allowed entry that agrees with a state is a product step, and fires a connected firing of its region.
pub fn entries_are_steps()
    ensures { EntriesAreSteps }
{}

/// A lawful history of allowed entries is a run.
pub fn histories_are_runs()
    ensures { HistoriesAreRuns }
{}

/// The entries that are planned by calculation are those that are allowed, and the choice that is calculated is the first.
pub fn plans_are_exact()
    ensures entries { PlannedAreAllowed }
    ensures choice { PlannedIsFirst }
{}
