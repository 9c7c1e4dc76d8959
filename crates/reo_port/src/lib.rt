//! Offers and answers: what a party of a circuit calls at its ports. None of these calls waits, and only the first takes memory.
#![tactic(auto)]

mod party;
mod slots;

pub use party::{Collected, Party, PortRefusal};
