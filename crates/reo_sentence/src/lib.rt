//! What one line of a document says, with its guards and functions, and its constants by number.
#![tactic(auto)]

mod cursor;
mod function;
mod guard;
mod line;
mod number;
mod said;
mod sentence;
mod stop;
mod text;

pub use line::{LineRefusal, read_line};
pub use said::{Name, Sentence};
pub use sentence::Place;
