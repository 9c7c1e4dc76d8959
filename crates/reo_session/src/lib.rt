//! One run on one thread: what it goes by, and the plain schedule.
#![tactic(auto)]

mod collect;
mod preparation;
mod progress;
mod schedule;
mod session;
mod steps;
mod turn;
mod watch;

pub use preparation::{Prepared, SessionRefusal, prepare};
pub use schedule::Ended;
pub use session::{ReportText, plain_session, plain_text, session_by};
pub use steps::Stepper;
