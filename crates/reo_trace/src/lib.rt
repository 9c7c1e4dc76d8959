//! What a run did: its steps, the calls that it answered and how it ended, and the text of that.
#![tactic(auto)]

mod calls;
mod fronts;
pub mod laws;
mod lines;
mod numbers;
mod parts;
mod quotes;
mod recorder;
mod report;
mod report_lines;
mod room;
mod runs;
mod shown;
mod step_list;
mod write;

pub use lines::{bytes_at, push_bytes, push_decimal, push_name, push_signed, push_value};
pub use recorder::Recorder;
pub use report::{Called, Ending, Report};
pub use report_lines::ReportLines;
pub use step_list::StepList;
pub use write::{WriteRefusal, write_report};
