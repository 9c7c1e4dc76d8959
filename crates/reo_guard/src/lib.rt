//! Guards, which data meet or fail, and functions from data to data.
#![tactic(auto)]

mod fun;
mod guard;
pub mod laws;

pub use fun::{Fun, apply};
pub use guard::{Cmp, Guard, holds};
