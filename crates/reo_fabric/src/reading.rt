//! What a region reads before it fires.
ghost use Rattle.std.specs.Prelude.{IfOk};
ghost use Rattle.reo_fabric.specs.Fabric.{IsLawfulFabric};
ghost use Rattle.reo_fabric.specs.Reading.{IsReadingIn};

use crate::fabric::Fabric;
use crate::words::unread;
use sqlite_items::Items;
use std::alloc::{AllocError, Global};

/// The words that a region reads: for each of its cells a word, the code of what is in it or 0; for each of its ports a
/// state word, 1 where it is offered, and a data word, the code of what is offered at a put port. Places rise.
#[derive(Debug, Drop)]
pub struct Reading {
    pub region: u32,
    pub round: u64,
    pub clock: u64,
    pub cells: Items<(u32, u64)>,
    pub ports: Items<(u32, u64, u64)>,
}

/// The number of a firing in its region's table.
#[derive(Clone, Copy, Debug, PartialEq, Eq)]
pub struct Choice(pub u32);

impl Reading {
    /// A reading with a word for each cell and two for each port of a region, which say nothing yet.
    pub fn new(alloc: Global, fabric: &Fabric, region: u32) -> Result<Reading, AllocError>
        requires { IsLawfulFabric fabric.now }
        ensures { IfOk result (IsReadingIn fabric.now region) }
    {
        unread(alloc, fabric, region)
    }
}
