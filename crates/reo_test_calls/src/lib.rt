//! Tests of whole calls: documents with their status and what is written.
#![tactic(auto)]

#[cfg(test)]
mod each_call;
#[cfg(test)]
mod rows;
#[cfg(test)]
mod runs;
