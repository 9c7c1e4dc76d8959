//! What the tokens of a line say: the grammar of documents, and the laws of it.
#![tactic(auto)]

mod key;
pub mod laws;

pub use key::{Key, key_of};
