//! Who is told the steps of a run, one after the other.
ghost use Rattle.std.specs.Prelude.{List, [], ◌∷◌, ◌++◌, OnOk};
ghost use Rattle.reo_net.specs.declared.circuit.Step.{Step as AnyStep};

use reo_value::Value;
use std::alloc::AllocError;

/// What a run keeps of its steps, in their order.
pub trait Recorder {
    /// These are the steps that were kept from the one state to the other.
    ghost has_kept: { Self → Self → List AnyStep → Type 0 };

    /// Keeps the next step, which has these pairs of names and values.
    fn keep(&mut self, pairs: &[(u32, Value)]) -> Result<(), AllocError>
        ensures { OnOk result ((start : Self) (steps : List AnyStep) → has_kept start self.old steps → has_kept start self.new (steps ++ (record { pairs = pairs.now }) ∷ [])) };
}
