//! The text that tells a circuit's regions: their firings, the buffers between them, and where the ports are.
#![tactic(auto)]

mod counts;
mod lines;
mod outline;
mod texts;

pub use outline::outline_of;
