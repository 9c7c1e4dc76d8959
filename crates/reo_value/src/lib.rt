//! The data that moves through a circuit, their words, and the numbered list of texts.
#![tactic(auto)]

mod code;
pub mod laws;
mod lexicon;
mod num;
mod op;
mod value;

pub use code::{value_of, word_of};
pub use lexicon::{LexRefusal, Lexicon};
pub use num::Num;
pub use op::{Op, Way};
pub use value::Value;
