//! The cut of a circuit at its buffers.
ghost use Rattle.std.specs.Prelude.{◌≡◌, IfOk};
ghost use Rattle.reo_cut.specs.Cut.{IsCut};

use crate::labels::labels;
use crate::regions::{cells, counts, numbers, port_region, region_of};
use reo_net::Net;
use sqlite_items::Items;
use std::alloc::{AllocError, Global};

/// A buffer, by its channel, with the region that fills it and the one that takes from it.
#[derive(Clone, Copy, Debug, PartialEq, Eq)]
pub struct CellCut {
    pub channel: u32,
    pub filler: u32,
    pub taker: u32,
}

/// The synchronous regions of a circuit, numbered by their least automata: channels are numbered first, then nodes.
#[derive(Debug, Drop)]
pub struct Cut {
    pub regions: u32,
    /// The region of each automaton; a buffer has none.
    pub region_of: Items<Option<u32>>,
    /// The buffers, in the order of the channels.
    pub cells: Items<CellCut>,
    /// The region of each port, which is that of its node.
    pub port_region: Items<u32>,
}

/// Cuts a circuit at its FIFO1s. Its time is near-linear in the automata: a forest of parents joins the regions.
pub fn cut_of(alloc: Global, net: &Net) -> Result<Cut, AllocError>
    ensures exact { IfOk result (IsCut net.now) }
{
    let found = labels(alloc, net)?;
    let labels = found.as_slice();
    let counted = counts(alloc, net, labels)?;
    let counts = counted.as_slice();
    let numbered = numbers(alloc, labels, counts)?;
    let numbers = numbered.as_slice();
    let regions = counts[labels.len()];
    let region_of = region_of(alloc, net, numbers)?;
    let cells = cells(alloc, net, numbers)?;
    let port_region = port_region(alloc, net, numbers)?;
    Ok(Cut {
        regions,
        region_of,
        cells,
        port_region,
    })
}
