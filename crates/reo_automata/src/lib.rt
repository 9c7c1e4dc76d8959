//! The transitions of one channel or one node, each as a set of names that fire at once, with a rule for their data.
#![tactic(auto)]

mod channel;
mod names;
mod node;
mod template;

pub use names::{NodeNames, names_of_nodes};
pub use template::{Link, Rule, Template, template_by, template_of};
