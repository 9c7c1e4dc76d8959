//! What growth sees of a region.
use sqlite_items::Items;

/// An automaton: its names, and for each of its links the names that the link fires.
#[derive(Drop)]
pub struct Automaton {
    pub names: Items<u32>,
    pub links: Items<Items<u32>>,
}

/// The automata of a region, each known by its place, and the two ends of each FIFO1. All names are below `names`.
#[derive(Drop)]
pub struct Web {
    pub automata: Items<Automaton>,
    pub cells: Items<(u32, u32)>,
    pub names: u32,
}
