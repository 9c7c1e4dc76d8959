//! The picture of a circuit, as text for Graphviz.
#![tactic(auto)]

pub mod laws;
mod lines;
mod picture;
mod quote;

pub use picture::picture_of;
