//! Laws about the definitions, each a function that does nothing.
ghost use Rattle.reo_guard.specs.Laws.{AndIsBoth, OrIsEither, NotIsNone};

/// What the guards made of guards mean.
pub fn guards_hold_by_parts()
    ensures both { AndIsBoth }
    ensures either { OrIsEither }
    ensures none { NotIsNone }
{}
