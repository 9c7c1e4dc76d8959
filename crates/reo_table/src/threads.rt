//! Threads share the words, and a seat goes to the thread that steps with it.
use crate::party_seat::PartySeat;
use crate::region_seat::RegionSeat;
use crate::root::Root;
use crate::words::Words;

/// Takes what threads may share by `&`, and send.
fn is_shared<T: Send + Sync>(_value: &T) {}

/// Takes what one thread may send to another.
fn is_sent<T: Send>(_value: &T) {}

/// Threads may share the words, and send the root and the seats.
pub fn all_cross_threads(words: &Words, root: &Root, seat: &RegionSeat, party: &PartySeat) {
    is_shared(words);
    is_sent(root);
    is_sent(seat);
    is_sent(party);
}
