//! Tests of ports: two parties and a region on the words that threads share.
#![tactic(auto)]

#[cfg(test)]
mod pipe;
