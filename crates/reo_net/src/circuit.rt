ghost use Rattle.std.specs.Prelude.{◌≡◌, IfOk};

use crate::kind::Kind;
use reo_value::{Value, Way};
use sqlite_items::Items;
use std::alloc::{AllocError, Global};

/// A channel from node `a` to node `b`.
#[derive(Drop)]
pub struct Channel {
    pub kind: Kind,
    pub a: u32,
    pub b: u32,
}

impl Channel {
    /// A copy of the channel.
    pub fn try_clone(&self, alloc: Global) -> Result<Channel, AllocError>
        ensures { IfOk result (λ copy. copy ≡ self.now) }
    {
        Ok(Channel {
            kind: self.kind.try_clone(alloc)?,
            a: self.a,
            b: self.b,
        })
    }
}

/// An open end of a node: there a component puts, or gets.
#[derive(Clone, Copy, Debug, PartialEq, Eq)]
pub struct Port {
    pub node: u32,
    pub way: Way,
}

/// A circuit as it was read: numbers of nodes and texts, channels and ports in the order of their lines.
#[derive(Drop)]
pub struct RawCircuit {
    pub nodes: u32,
    pub texts: u32,
    pub channels: Items<Channel>,
    pub ports: Items<Port>,
}

/// What fires at once: the names, rising, each with its datum.
#[derive(Debug, Drop)]
pub struct Step {
    pub pairs: Items<(u32, Value)>,
}
