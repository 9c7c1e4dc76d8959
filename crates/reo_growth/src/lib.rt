//! The firings of a region that hang together, grown automaton by automaton. Nothing here knows of circuits: a region is a
//! web of automata that share names.
#![tactic(auto)]

mod engine;
mod found;
mod ground;
pub mod laws;
mod marks;
mod table;
mod trail;
mod web;

pub use found::Row;
pub use table::{Table, TableRefusal, table_of};
pub use web::{Automaton, Web};
