//! The canonical text of a document.
#![tactic(auto)]

mod document;
mod front;
mod function;
mod guard;
pub mod laws;
mod line;

pub use document::print_document;
pub use line::push_rest;
