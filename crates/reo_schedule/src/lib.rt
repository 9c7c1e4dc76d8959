//! The plain schedule over regions, as a relation: which report is that of a run on one thread.
#![tactic(auto)]

pub mod laws;
