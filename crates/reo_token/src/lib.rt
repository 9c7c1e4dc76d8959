//! The tokens of a line, with their columns.
#![tactic(auto)]

mod bytes;
mod line;
mod token;

pub use line::{MOST_TOKENS, cut_line};
pub use token::{End, Lexeme, Symbol, Token};
