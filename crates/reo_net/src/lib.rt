//! Circuits: channels that meet at nodes, the checks on them, and what their steps are.
#![tactic(auto)]

mod circuit;
mod kind;
pub mod laws;
mod net;
mod stand;
mod steps;

pub use circuit::{Channel, Port, RawCircuit, Step};
pub use kind::Kind;
pub use net::{CheckRefusal, Net, check};
pub use stand::{Stand, stand_of};
pub use steps::{channel_allows, datum_at, is_product_step, is_step, node_allows};
