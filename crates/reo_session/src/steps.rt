//! Who chooses, and knows the steps of what is chosen.
ghost use Rattle.std.specs.Prelude.{OnOk};
ghost use Rattle.reo_net.specs.declared.circuit.Step.{Step as AnyStep};
ghost use Rattle.reo_fabric.specs.declared.entry.Entry.{Entry as AnyEntry};

use reo_fabric::{Decider, EntryRef};
use reo_plan::Plan;
use reo_value::Value;
use std::alloc::AllocError;

/// A decider that gives the pairs of the step of each entry that it allows.
pub trait Stepper: Decider {
    /// The entry is one of which the step is known.
    ghost may_step: { Self → AnyEntry → Type 0 };

    /// The entry has this step.
    ghost has_step: { Self → AnyEntry → AnyStep → Type 0 };

    /// Makes a list the pairs of an entry's step.
    fn step_into(
        &self,
        entry: &EntryRef<'_>,
        pairs: &mut Vec<(u32, Value)>,
    ) -> Result<(), AllocError>
        requires { Self.may_step self.now entry.now }
        ensures { OnOk result (has_step self.now entry.now (record { pairs = pairs.new.items })) };
}

impl<'a> Stepper for Plan<'a> {
    ghost use Rattle.reo_session.specs.Plan.{IsAllowedSomewhere, IsStepWherever};

    ghost may_step = { λ plan. IsAllowedSomewhere plan.circuit plan.texts plan.tables };

    ghost has_step = { λ plan. IsStepWherever plan.circuit plan.texts plan.tables };

    fn step_into(
        &self,
        entry: &EntryRef<'_>,
        pairs: &mut Vec<(u32, Value)>,
    ) -> Result<(), AllocError> {
        Plan::step_into(self, entry, pairs)
    }
}
