//! The words that the threads of a circuit share, and the seats by which regions and parties step on them. Each call of a seat is
//! one atomic step, and the rule of `reo_coupling` holds between any two.
#![tactic(auto)]

mod clock;
mod closing;
mod party_seat;
mod region_seat;
mod root;
mod rule;
mod threads;
mod words;

pub use clock::Clock;
pub use closing::Final;
pub use party_seat::PartySeat;
pub use region_seat::RegionSeat;
pub use root::Root;
pub use threads::all_cross_threads;
pub use words::Words;
