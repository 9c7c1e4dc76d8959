//! What a line says, with its names by their places in the line.
use reo_net::Kind;
use reo_value::{Value, Way};

/// The bytes of its line that a name is.
#[derive(Clone, Copy, Debug, PartialEq, Eq)]
pub struct Name {
    pub start: u32,
    pub end: u32,
}

/// What a line says, with its constants by number.
#[derive(Drop)]
pub enum Sentence {
    /// A port at a node.
    Port(Way, Name),
    /// A channel from a node to a node.
    Channel(Kind, Name, Name),
    /// The operations that follow are this component's.
    Component(Name),
    Put(Name, Value),
    Get(Name),
}
