//! The cells and ports that regions share.
use reo_value::{Value, Way};
use sqlite_items::Items;

/// A buffer of one place: the region that fills it, the one that takes from it, and what it holds at first.
#[derive(Clone, Copy, Debug, PartialEq, Eq)]
pub struct CellSpec {
    pub filler: u32,
    pub taker: u32,
    pub first: Option<Value>,
}

/// A port: which way data go at it, the region that it is at, and the party that uses it.
#[derive(Clone, Copy, Debug, PartialEq, Eq)]
pub struct PortSpec {
    pub way: Way,
    pub region: u32,
    pub owner: Option<u32>,
}

/// How many regions and parties there are, and the cells and ports, each known by its place.
#[derive(Debug, Drop)]
pub struct Fabric {
    pub regions: u32,
    pub parties: u32,
    pub cells: Items<CellSpec>,
    pub ports: Items<PortSpec>,
}
