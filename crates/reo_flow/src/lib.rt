//! What the entries of a region's firings are to the steps of a circuit.
#![tactic(auto)]

mod fact;
mod giver;
pub mod laws;

pub use fact::Fact;
pub use giver::Giver;
