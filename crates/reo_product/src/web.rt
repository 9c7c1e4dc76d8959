//! The web of a region.
ghost use Rattle.std.specs.Prelude.{◌≡◌, ℕ, ◌+◌, ◌<◌, ◌^◌, length, true, All, IfOk};
ghost use Rattle.std.specs.List.Sorted.{IsStrictlyIncreasing};
ghost use Rattle.reo_net.specs.Checks.{IsChecked};
ghost use Rattle.reo_net.specs.Regions.{Automaton as AnyAutomaton};
ghost use Rattle.reo_automata.specs.NodeNames.{AreNodeNames};
ghost use Rattle.reo_growth.specs.Web.{AreFew, IsWeb};
ghost use Rattle.reo_product.specs.RegionWeb.{IsRegionWeb};
ghost use Rattle.reo_product.specs.Places.{AreCells, AreNamesOf, ArePaired, AreRegionAutomata, AreTemplates, FindsCell, begins_buffer, IsKnownTemplate, IsPlacedTemplate};

use crate::places::{place_of, place_template};
use reo_automata::{NodeNames, Template, template_by};
use reo_growth::{Automaton, Web};
use reo_net::Net;
use sqlite_items::{Items, at};
use std::alloc::{AllocError, Global};

/// A region as a web, and its names: the name at a place of the list is known in the web by that place.
#[derive(Drop)]
pub struct RegionWeb {
    pub names: Items<u32>,
    pub web: Web,
}

/// The templates of automata.
fn templates_of(
    alloc: Global,
    net: &Net,
    node_names: &NodeNames,
    automata: &[u32],
) -> Result<Vec<Template>, AllocError>
    requires node_names { AreNodeNames net.now node_names.now }
    requires below { All (λ x. x < length net.now.channels + net.now.nodes) automata.now }
    ensures { IfOk result (λ templates. AreTemplates net.now automata.now templates.items) }
{
    let mut templates = Vec::with_capacity(alloc, automata.len())?;
    for number in automata {
        templates.push(template_by(alloc, net, node_names, *number)?)?;
    }
    Ok(templates)
}

/// All names of the templates.
fn names_of(alloc: Global, templates: &[Template]) -> Result<Vec<u32>, AllocError>
    ensures { IfOk result (λ names. AreNamesOf templates.now names.items) }
{
    let mut names = Vec::with_capacity(alloc, templates.len().saturating_mul(4))?;
    for template in templates {
        names.extend_from_slice(template.names.as_slice())?;
    }
    names.sort_unstable();
    names.dedup();
    Ok(names)
}

fn place_templates(
    alloc: Global,
    names: &[u32],
    templates: Vec<Template>,
) -> Result<Items<Automaton>, AllocError>
    requires rising { IsStrictlyIncreasing names.now }
    requires few { length names.now < 2 ^ 32 }
    requires known { All (IsKnownTemplate names.now) templates.items }
    ensures { IfOk result (ArePaired (IsPlacedTemplate names.now) templates.items) }
{
    let mut automata = Vec::with_capacity(alloc, templates.len())?;
    for template in templates {
        automata.push(place_template(alloc, names, template)?)?;
    }
    Ok(Items::from_vec(automata))
}

/// The FIFO1s of which both ends are among the names.
fn cells_of(alloc: Global, net: &Net, names: &[u32]) -> Result<Items<(u32, u32)>, AllocError>
    requires rising { IsStrictlyIncreasing names.now }
    requires few { length names.now < 2 ^ 32 }
    ensures { IfOk result (AreCells net.now names.now (length net.now.channels)) }
{
    let mut cells = Items::new(alloc);
    for name in names {
        if let Some(cell) = cell_of(names, begins_buffer(net, *name), *name) {
            cells.push(cell)?;
        }
    }
    Ok(cells)
}

/// Whether a name is that of end a of a FIFO1.
fn begins_buffer(net: &Net, name: u32) -> bool
    ensures is { result ≡ begins_buffer net.now name }
    ensures fits { result ≡ true → name + 1 < 2 ^ 32 }
{
    let name = name as usize;
    let ports = net.ports().len();
    if name < ports || (name - ports) % 2 == 1 {
        return false;
    }
    match at(net.channels(), (name - ports) / 2) {
        Some(channel) => channel.kind.is_fifo(),
        None => false,
    }
}

/// The places of both ends of a FIFO1, by the name of its end a; none where it is no FIFO1 or an end is not among the names.
fn cell_of(names: &[u32], is_fifo: bool, a: u32) -> Option<(u32, u32)>
    requires rising { IsStrictlyIncreasing names.now }
    requires few { length names.now < 2 ^ 32 }
    requires fits { is_fifo ≡ true → a + 1 < 2 ^ 32 }
    ensures { FindsCell names.now is_fifo a result }
{
    if !is_fifo {
        return None;
    }
    let place = place_of(names, a)?;
    let next = place_of(names, a + 1)?;
    Some((place, next))
}

/// The region with these automata as a web.
pub fn web_of(
    alloc: Global,
    net: &Net,
    node_names: &NodeNames,
    automata: &[u32],
) -> Result<RegionWeb, AllocError>
    requires checked { IsChecked net.now }
    requires node_names { AreNodeNames net.now node_names.now }
    requires below { All (λ x. x < length net.now.channels + net.now.nodes) automata.now }
    ensures web { IfOk result (λ it. (root : AnyAutomaton) → AreRegionAutomata net.now root automata.now → IsRegionWeb net.now root it.names it.web) }
    ensures is_web { IfOk result (λ it. IsWeb it.web) }
    ensures named { IfOk result (λ it. it.web.names ≡ length it.names) }
    ensures few { IfOk result (λ it. IsStrictlyIncreasing automata.now → AreFew it.web) }
{
    let templates = templates_of(alloc, net, node_names, automata)?;
    let names = names_of(alloc, &templates)?;
    let automata = place_templates(alloc, &names, templates)?;
    let cells = cells_of(alloc, net, &names)?;
    let count = names.len() as u32;
    Ok(RegionWeb {
        names: Items::from_vec(names),
        web: Web {
            automata,
            cells,
            names: count,
        },
    })
}
