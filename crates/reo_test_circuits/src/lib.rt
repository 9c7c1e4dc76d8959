//! Tests of circuits as documents tell them: checks, product steps, templates, cuts, and the tables of regions.
#![tactic(auto)]

#[cfg(test)]
mod checks;
#[cfg(test)]
mod circuits;
#[cfg(test)]
mod cuts;
#[cfg(test)]
mod product_steps;
#[cfg(test)]
mod tables;
