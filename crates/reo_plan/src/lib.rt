//! Data plans: what a region's firings read and do, made once, and the choice of the first that a reading allows.
#![tactic(auto)]

mod asks;
mod back;
mod columns;
mod compiler;
mod evaluate;
mod facts;
mod first;
mod givers;
mod known;
pub mod laws;
mod marks;
mod needs;
mod places;
mod plans;
mod row;
mod slots;
mod sources;
mod view;
mod wiring;
mod write;

pub use plans::{Plan, compile};
pub use wiring::fabric;
