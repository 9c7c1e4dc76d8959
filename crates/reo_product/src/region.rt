//! The table of a region of a circuit that is cut.
ghost use Rattle.std.specs.Prelude.{◌≡◌, ℕ, ◌<◌, ◌^◌, List, length, map, slice_get, All, Some, IfOk, IfErr};
ghost use Rattle.std.specs.List.Sorted.{IsStrictlyIncreasing};
ghost use Rattle.reo_net.specs.Regions.{Automaton};
ghost use Rattle.reo_automata.specs.NodeNames.{AreNodeNames};
ghost use Rattle.reo_cut.specs.Cut.{IsCut};
ghost use Rattle.reo_product.specs.Region.{AreMembers, is_of, numbers_of};
ghost use Rattle.reo_product.specs.Table.{IsTableOf, Refuses, names_in};

use crate::members::Members;
use crate::table::{ProductRefusal, RegionTable, table_of_automata};
use reo_automata::{NodeNames, names_of_nodes};
use reo_cut::Cut;
use reo_net::Net;
use std::alloc::{AllocError, Global};

fn is_of(region: u32, entry: Option<u32>) -> bool
    ensures { result ≡ is_of region entry }
{
    match entry {
        Some(number) => number == region,
        None => false,
    }
}

/// The numbers of a region's automata.
fn numbers_of(alloc: Global, region_of: &[Option<u32>], region: u32) -> Result<Vec<u32>, AllocError>
    requires { length region_of.now < 2 ^ 32 }
    ensures { IfOk result (λ numbers. numbers.items ≡ numbers_of region_of.now region) }
{
    let mut numbers = Vec::new(alloc);
    for (number, entry) in region_of.iter().enumerate() {
        if is_of(region, *entry) {
            numbers.push(number as u32)?;
        }
    }
    Ok(numbers)
}

/// The table of the region with this number, in a circuit that is cut so.
pub fn region_table(
    alloc: Global,
    net: &Net,
    cut: &Cut,
    region: u32,
) -> Result<RegionTable, ProductRefusal>
    requires cut { IsCut net.now cut.now }
    ensures region { IfOk result (λ table. table.region ≡ region) }
    ensures table { IfOk result (λ table. (cut : IsCut net.now cut.now) (root : Automaton) → slice_get cut.roots region ≡ Some root → IsTableOf net.now root table.growth (map names_in table.firings)) }
    ensures refused { IfErr result (λ why. (cut : IsCut net.now cut.now) (root : Automaton) → slice_get cut.roots region ≡ Some root → Refuses net.now root region why) }
{
    let _ = net.nodes();
    let automata = numbers_of(alloc, cut.region_of.as_slice(), region)?;
    let node_names = names_of_nodes(alloc, net)?;
    table_of_automata(alloc, net, &node_names, region, &automata)
}

/// The same as `region_table`, where the automata of all regions and the names of all nodes are listed already.
pub fn region_table_of(
    alloc: Global,
    net: &Net,
    cut: &Cut,
    members: &Members,
    node_names: &NodeNames,
    region: u32,
) -> Result<RegionTable, ProductRefusal>
    requires cut { IsCut net.now cut.now }
    requires members { AreMembers cut.now.region_of cut.now.regions members.now }
    requires node_names { AreNodeNames net.now node_names.now }
    ensures region { IfOk result (λ table. table.region ≡ region) }
    ensures table { IfOk result (λ table. (cut : IsCut net.now cut.now) (root : Automaton) → slice_get cut.roots region ≡ Some root → IsTableOf net.now root table.growth (map names_in table.firings)) }
    ensures refused { IfErr result (λ why. (cut : IsCut net.now cut.now) (root : Automaton) → slice_get cut.roots region ≡ Some root → Refuses net.now root region why) }
{
    let _ = net.nodes();
    table_of_automata(alloc, net, node_names, region, members.of(region))
}
