//! The tool: one run of a document, and the call that does all that the program does.
#![tactic(auto)]

mod call;
mod command;
mod fault_text;
mod status;

pub use call::{
    MOST_BYTES, plain_call, prepare_document, tell, tell_memory, tell_session, tell_text,
};
pub use command::Command;
pub use fault_text::{READ_FAILED, TOO_LONG};
pub use status::Status;
