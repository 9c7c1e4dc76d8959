//! A run's steps, kept as they are.
ghost use Rattle.std.specs.Prelude.{◌≡◌, [], ◌∷◌, ◌++◌, OnOk};

use crate::Recorder;
use reo_net::Step;
use reo_value::Value;
use sqlite_items::Items;
use std::alloc::{AllocError, Global};
use std::marker::Model;

/// The steps of a run, as a list: contracts see it so.
#[derive(Drop)]
pub struct StepList {
    alloc: Global,
    steps: Vec<Step>,
}

impl Model for StepList {
    ghost use Rattle.std.specs.Prelude.{List};
    ghost use Rattle.reo_net.specs.declared.circuit.Step.{Step as AnyStep};

    ghost Value = { List AnyStep };

    ghost view = { λ l. l.steps.items };
}

impl StepList {
    pub fn new(alloc: Global) -> StepList
        ensures { result ≡ [] }
    {
        StepList {
            alloc,
            steps: Vec::new(alloc),
        }
    }

    pub fn into_steps(self) -> Items<Step>
        ensures { result ≡ self }
    {
        Items::from_vec(self.steps)
    }
}

impl Recorder for StepList {
    ghost use Rattle.std.specs.Prelude.{◌≡◌, ◌++◌};

    ghost has_kept = { λ start now steps. now ≡ start ++ steps };

    fn keep(&mut self, pairs: &[(u32, Value)]) -> Result<(), AllocError> {
        let pairs = Items::from_slice(self.alloc, pairs)?;
        self.steps.push(Step { pairs })?;
        Ok(())
    }
}
