use reo_net::Step;
use reo_value::{Op, Value};
use sqlite_items::Items;

/// An operation that was answered: with which value, and in the step of which number, from 0.
#[derive(Clone, Copy, Debug, PartialEq, Eq)]
pub struct Called {
    pub op: Op,
    pub value: Value,
    pub number: u64,
}

/// How a run ended.
#[derive(Clone, Copy, Debug, PartialEq, Eq)]
pub enum Ending {
    /// Every operation was answered.
    Done,
    /// Operations are left, and nothing is enabled.
    Stuck,
    /// Operations are left, and the run has its most steps.
    Limit,
}

/// What a run did: its steps in order, the answered calls of each component in order, and its end.
#[derive(Debug, Drop)]
pub struct Report {
    pub steps: Items<Step>,
    pub calls: Items<Items<Called>>,
    pub ending: Ending,
}
