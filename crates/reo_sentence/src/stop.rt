//! Why a line is not read on.
ghost use Rattle.std.specs.Prelude.{◌≡◌};
ghost use Rattle.reo_sentence.specs.declared.stop.Stop.TheVariants.{NoMemory as WantOfMemory};

use std::alloc::AllocError;

/// Why a line is not read on.
#[derive(Clone, Copy, Debug, PartialEq, Eq)]
pub(crate) enum Stop {
    /// No line goes on with the next token, or the line ends too early.
    Syntax,
    NoMemory,
}

impl From<AllocError> for Stop {
    ghost from_gives = { λ _ e. e ≡ WantOfMemory };

    fn from(_error: AllocError) -> Stop {
        Stop::NoMemory
    }
}
