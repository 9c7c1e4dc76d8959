//! The tables of the regions of a circuit.
#![tactic(auto)]

pub mod laws;
mod members;
mod places;
mod region;
mod table;
mod web;

pub use members::{Members, members_of};
pub use region::{region_table, region_table_of};
pub use table::{Firing, ProductRefusal, RegionTable, table_of_automata};
