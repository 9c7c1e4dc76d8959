//! What the shared words stand for between any two atomic steps, and that each kind of step keeps it. All of it is about plain
//! data: words, what each region knows, a history.
#![tactic(auto)]

pub mod laws;
mod view;

pub use view::{
    Call, CellsView, Loaded, Mark, Offer, PartyView, PortView, PortsView, RegionView, RootView,
    Stage, View,
};
