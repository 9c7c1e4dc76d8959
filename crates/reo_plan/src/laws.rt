//! Laws about the definitions, each a function that does nothing.
ghost use Rattle.reo_plan.specs.Laws.{FirstStatesAreInitial, PlansFit};

/// The entries that a plan allows fit each fabric that is made of its circuit.
pub fn plans_fit()
    ensures { PlansFit }
{}

/// The cells of a fabric hold at first what the circuit's buffers do.
pub fn first_states_are_initial()
    ensures { FirstStatesAreInitial }
{}
