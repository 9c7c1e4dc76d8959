//! The names of all nodes, listed in one pass.
ghost use Rattle.std.specs.Prelude.{◌≡◌, ◌<◌, [], length, slice_index_or, filter, IfOk, OnOk};
ghost use Rattle.std.specs.List.{range_with_len};
ghost use Rattle.reo_automata.specs.Links.{is_at};
ghost use Rattle.reo_automata.specs.NodeNames.{AddsName, AreListsOf, AreNodeNames};

use reo_net::Net;
use sqlite_items::Items;
use std::alloc::{AllocError, Global};
use std::marker::Model;

/// For each node its names, which rise.
#[derive(Drop)]
pub struct NodeNames {
    lists: Items<Items<u32>>,
}

impl Model for NodeNames {
    ghost use Rattle.std.specs.Prelude.{ℕ, List};

    ghost Value = { List (List ℕ) };

    ghost view = { λ n. n.lists };
}

impl NodeNames {
    /// The names of a node; none where there is no such node.
    pub fn of(&self, node: u32) -> &[u32]
        ensures { result.now ≡ slice_index_or self.now node [] }
    {
        match self.lists.get(node as usize) {
            Some(list) => list.as_slice(),
            None => &[],
        }
    }
}

/// As many empty lists.
fn empty_lists(alloc: Global, count: u32) -> Result<Vec<Items<u32>>, AllocError>
    ensures { IfOk result (λ lists. AreListsOf count (λ _. []) lists.items) }
{
    let mut lists = Vec::with_capacity(alloc, count as usize)?;
    for _ in 0..count {
        lists.push(Items::new(alloc))?;
    }
    Ok(lists)
}

/// Lists a name at its node.
fn add_name(lists: &mut Vec<Items<u32>>, node: u32, name: u32) -> Result<(), AllocError>
    ensures { OnOk result (AddsName node name lists.old.items lists.new.items) }
{
    let node = node as usize;
    if node < lists.len() {
        lists[node].push(name)?;
    }
    Ok(())
}

/// The ports of each node.
fn port_lists(alloc: Global, net: &Net) -> Result<Vec<Items<u32>>, AllocError>
    ensures { IfOk result (λ lists. AreListsOf net.now.nodes (λ node. filter (is_at net.now node) (range_with_len 0 (length net.now.ports))) lists.items) }
{
    let mut lists = empty_lists(alloc, net.nodes())?;
    for (number, port) in net.ports().iter().enumerate() {
        add_name(&mut lists, port.node, number as u32)?;
    }
    Ok(lists)
}

/// The names of each node.
fn name_lists(alloc: Global, net: &Net) -> Result<Vec<Items<u32>>, AllocError>
    ensures { IfOk result (λ lists. AreNodeNames net.now lists.items) }
{
    let mut lists = port_lists(alloc, net)?;
    let ports = net.ports().len();
    for (number, channel) in net.channels().iter().enumerate() {
        let end = (ports + 2 * number) as u32;
        add_name(&mut lists, channel.a, end)?;
        add_name(&mut lists, channel.b, end + 1)?;
    }
    Ok(lists)
}

/// The names of all nodes of a circuit, in one pass over its ports and its channels.
pub fn names_of_nodes(alloc: Global, net: &Net) -> Result<NodeNames, AllocError>
    ensures { IfOk result (AreNodeNames net.now) }
{
    let lists = name_lists(alloc, net)?;
    Ok(NodeNames {
        lists: Items::from_vec(lists),
    })
}
