//! Tests of lines that are refused, each for one reason, with its line and column.
#![tactic(auto)]

#[cfg(test)]
mod refused_lines;
