//! A law about the definitions: a function that does nothing.
ghost use Rattle.reo_trace.specs.Laws.{EndsInOneWay};

/// The calls of a run, its limit, how many steps it made and the state after them determine how it ended.
pub fn ending_is_determined()
    ensures { EndsInOneWay }
{}
