//! Templates: what an automaton may fire, and under which rule.
ghost use Rattle.std.specs.Prelude.{◌≡◌, ◌+◌, ◌<◌, length, IfOk};
ghost use Rattle.reo_automata.specs.NodeNames.{AreNodeNames};
ghost use Rattle.reo_automata.specs.Template.{automaton_of, IsTemplate};

use crate::channel::channel_template;
use crate::names::NodeNames;
use crate::node::{named_template, node_template};
use reo_net::Net;
use sqlite_items::Items;
use std::alloc::{AllocError, Global};

/// What is asked of the data at the names that a link fires.
#[derive(Clone, Copy, Debug, PartialEq, Eq)]
pub enum Rule {
    /// All are one datum.
    Same,
    /// They meet the channel's guard, and are one datum.
    Pass,
    /// They fail the channel's guard.
    Lose,
    /// Nothing.
    Free,
    /// The one is what the channel's function yields at the other.
    Image,
    /// The empty buffer is full of the datum then.
    Store,
    /// The full buffer gives its datum and is empty then.
    Emit,
}

/// A set of names that an automaton fires at once, rising, and the rule for their data.
#[derive(Debug, Drop)]
pub struct Link {
    pub fires: Items<u32>,
    pub rule: Rule,
}

/// The names of an automaton, rising, and its links.
#[derive(Debug, Drop)]
pub struct Template {
    pub names: Items<u32>,
    pub links: Items<Link>,
}

/// The template of an automaton: channels are numbered first, then nodes.
pub fn template_of(alloc: Global, net: &Net, auto: u32) -> Result<Template, AllocError>
    requires { auto < length net.now.channels + net.now.nodes }
    ensures exact { IfOk result (IsTemplate net.now (automaton_of net.now auto)) }
{
    let channels = net.channels();
    let number = auto as usize;
    if number < channels.len() {
        let end = (net.ports().len() + 2 * number) as u32;
        let template = channel_template(alloc, &channels[number].kind, end)?;
        Ok(template)
    } else {
        let template = node_template(alloc, net, auto - channels.len() as u32)?;
        Ok(template)
    }
}

/// The same as `template_of`, where the names of all nodes are listed already.
pub fn template_by(
    alloc: Global,
    net: &Net,
    names: &NodeNames,
    auto: u32,
) -> Result<Template, AllocError>
    requires below { auto < length net.now.channels + net.now.nodes }
    requires names { AreNodeNames net.now names.now }
    ensures exact { IfOk result (IsTemplate net.now (automaton_of net.now auto)) }
{
    let channels = net.channels();
    let number = auto as usize;
    if number < channels.len() {
        let end = (net.ports().len() + 2 * number) as u32;
        let template = channel_template(alloc, &channels[number].kind, end)?;
        Ok(template)
    } else {
        let list = names.of(auto - channels.len() as u32);
        let template = named_template(alloc, net, list)?;
        Ok(template)
    }
}
