//! The links of a node.
ghost use Rattle.std.specs.Prelude.{◌≡◌, ◌∷◌, [], ◌++◌, cond, length, not, nat_eq, ◌||◌, filter, IfOk};
ghost use Rattle.std.specs.List.{list_any, range_with_len};
ghost use Rattle.reo_automata.specs.Links.{is_at, is_in, serving, input_link, node_names, node_links};

use crate::template::{Link, Rule, Template};
use reo_net::{Net, stand_of};
use sqlite_items::Items;
use std::alloc::{AllocError, Global};

fn is_in(net: &Net, name: u32) -> bool
    ensures { result ≡ is_in net.now name }
{
    match stand_of(net, name) {
        Some(stand) => stand.incoming,
        None => false,
    }
}

/// Appends a name that is wanted.
fn push_wanted(names: &mut Vec<u32>, is_wanted: bool, name: u32) -> Result<(), AllocError>
    ensures { IfOk result (λ _. names.new.items ≡ names.old.items ++ cond is_wanted (name ∷ []) []) }
{
    if is_wanted {
        names.push(name)?;
    }
    Ok(())
}

/// The ports of a node.
fn node_ports(alloc: Global, net: &Net, node: u32) -> Result<Vec<u32>, AllocError>
    ensures { IfOk result (λ names. names.items ≡ filter (is_at net.now node) (range_with_len 0 (length net.now.ports))) }
{
    let mut names = Vec::new(alloc);
    for (number, port) in net.ports().iter().enumerate() {
        push_wanted(&mut names, port.node == node, number as u32)?;
    }
    Ok(names)
}

/// The names of a node.
fn node_names(alloc: Global, net: &Net, node: u32) -> Result<Vec<u32>, AllocError>
    ensures { IfOk result (λ names. names.items ≡ node_names net.now node) }
{
    let mut names = node_ports(alloc, net, node)?;
    let ports = net.ports().len();
    for (number, channel) in net.channels().iter().enumerate() {
        let end = (ports + 2 * number) as u32;
        push_wanted(&mut names, channel.a == node, end)?;
        push_wanted(&mut names, channel.b == node, end + 1)?;
    }
    Ok(names)
}

/// Of a node's names, this input and all by which data go out.
fn serving(alloc: Global, net: &Net, names: &[u32], input: u32) -> Result<Items<u32>, AllocError>
    ensures { IfOk result (λ fires. fires ≡ serving net.now names.now input) }
{
    let mut fires = Vec::new(alloc);
    for name in names {
        if !is_in(net, *name) || *name == input {
            fires.push(*name)?;
        }
    }
    Ok(Items::from_vec(fires))
}

fn goes_out(net: &Net, names: &[u32]) -> bool
    ensures { result ≡ list_any (λ name. not (is_in net.now name)) names.now }
{
    names.iter().any(|name| !is_in(net, *name))
}

/// The link of a name by which data come in.
fn input_link(
    alloc: Global,
    net: &Net,
    names: &[u32],
    name: u32,
) -> Result<Option<Link>, AllocError>
    ensures { IfOk result (λ link. link ≡ input_link net.now names.now name) }
{
    if !is_in(net, name) {
        return Ok(None);
    }
    let fires = serving(alloc, net, names, name)?;
    Ok(Some(Link {
        fires,
        rule: Rule::Same,
    }))
}

fn node_links(alloc: Global, net: &Net, names: &[u32]) -> Result<Items<Link>, AllocError>
    ensures { IfOk result (λ links. links ≡ node_links net.now names.now) }
{
    let mut links = Items::new(alloc);
    if !goes_out(net, names) {
        return Ok(links);
    }
    for name in names {
        if let Some(link) = input_link(alloc, net, names, *name)? {
            links.push(link)?;
        }
    }
    Ok(links)
}

pub fn node_template(alloc: Global, net: &Net, node: u32) -> Result<Template, AllocError>
    ensures { IfOk result (λ t. t ≡ record { names = node_names net.now node; links = node_links net.now (node_names net.now node) }) }
{
    let names = node_names(alloc, net, node)?;
    let links = node_links(alloc, net, &names)?;
    Ok(Template {
        names: Items::from_vec(names),
        links,
    })
}

/// The template of a node that has these names.
pub fn named_template(alloc: Global, net: &Net, names: &[u32]) -> Result<Template, AllocError>
    ensures { IfOk result (λ t. t ≡ record { names = names.now; links = node_links net.now names.now }) }
{
    let links = node_links(alloc, net, names)?;
    let names = Items::from_slice(alloc, names)?;
    Ok(Template { names, links })
}
