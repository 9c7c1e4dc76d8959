//! Tests of the parts: graphs, guards, kinds of channel, the plain engine, and the words that threads share.
#![tactic(auto)]

#[cfg(test)]
mod graphs;
#[cfg(test)]
mod guards;
#[cfg(test)]
mod kinds;
#[cfg(test)]
mod seven;
#[cfg(test)]
mod words;
