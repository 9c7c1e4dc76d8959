//! Documents: a circuit and the scripts of its components, read from text.
#![tactic(auto)]

mod builder;
mod document;
pub mod laws;
mod line;
mod lines;
mod plain;
mod read;
mod refusal;

pub use document::{Document, read_document};
pub use line::Line;
pub use refusal::TextRefusal;
