//! A circuit cut at its buffers into synchronous regions.
#![tactic(auto)]

mod cut;
mod labels;
mod regions;

pub use cut::{CellCut, Cut, cut_of};
