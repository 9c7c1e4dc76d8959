//! Paths in directed graphs, and the vertices that are on a loop.
#![tactic(auto)]

mod closure;
pub mod laws;
mod loops;
mod walk;

pub use closure::closed;
pub use loops::least_on_loop;
