//! What a region's firing does to cells and ports, who chooses it, and an engine that carries it out on one thread.
#![tactic(auto)]

mod carry;
mod decider;
mod engine;
mod entry;
mod entry_ref;
mod fabric;
pub mod laws;
mod port_state;
mod reading;
mod readings;
mod room;
mod rooms;
mod spare;
mod words;

pub use decider::Decider;
pub use engine::PlainEngine;
pub use entry::{Entry, Numbered};
pub use entry_ref::EntryRef;
pub use fabric::{CellSpec, Fabric, PortSpec};
pub use port_state::PortState;
pub use reading::{Choice, Reading};
pub use room::Room;
