//! The table of a region.
ghost use Rattle.std.specs.Prelude.{◌≡◌, ℕ, ◌+◌, ◌<◌, ◌^◌, List, length, map, All, IfOk, IfErr};
ghost use Rattle.std.specs.List.Sorted.{IsStrictlyIncreasing};
ghost use Rattle.reo_net.specs.Checks.{IsChecked};
ghost use Rattle.reo_net.specs.Regions.{Automaton as AnyAutomaton};
ghost use Rattle.reo_automata.specs.NodeNames.{AreNodeNames};
ghost use Rattle.reo_growth.specs.Marks.{AreBelow};
ghost use Rattle.reo_product.specs.Places.{AreRegionAutomata};
ghost use Rattle.reo_product.specs.RegionWeb.{name_at};
ghost use Rattle.reo_product.specs.Refusal.{refusal_of};
ghost use Rattle.reo_product.specs.Table.{IsTableOf, Refuses, names_in};

use crate::web::web_of;
use reo_automata::NodeNames;
use reo_growth::{Row, TableRefusal, table_of};
use reo_net::Net;
use sqlite_items::Items;
use std::alloc::{AllocError, Global};
use thiserror::Error;

/// Names that fire at once and hang together, rising.
#[derive(Debug, Drop)]
pub struct Firing {
    pub names: Items<u32>,
}

/// A region's number, how many vertices grow in it, and its connected firings: those with more names first, and of two
/// with equally many the one with the lesser list.
#[derive(Drop)]
pub struct RegionTable {
    pub region: u32,
    pub growth: u32,
    pub firings: Items<Firing>,
}

/// Why a region has no table.
#[derive(Clone, Copy, Debug, PartialEq, Eq, Error)]
pub enum ProductRefusal {
    /// In this region more vertices grow than 65,536, and then 65,537 is told; or it has more connected firings than 4,096,
    /// and then their number.
    #[error("region {0} is too large: {1}")]
    TooLarge(u32, u32),
    #[error("out of memory")]
    NoMemory,
}

impl From<AllocError> for ProductRefusal {
    ghost use Rattle.std.specs.Prelude.{◌≡◌};
    ghost use Rattle.reo_product.specs.declared.table.ProductRefusal.TheVariants.{NoMemory};

    ghost from_gives = { λ _ refusal. refusal ≡ NoMemory };

    fn from(_: AllocError) -> Self {
        ProductRefusal::NoMemory
    }
}

/// The refusal of a region whose web is refused.
fn refusal(region: u32, why: TableRefusal) -> ProductRefusal
    ensures { result ≡ refusal_of region why }
{
    match why {
        TableRefusal::TooLarge(count) => ProductRefusal::TooLarge(region, count),
        TableRefusal::NoMemory => ProductRefusal::NoMemory,
    }
}

/// The names at places, written over them.
fn named(names: &[u32], mut places: Vec<u32>) -> Vec<u32>
    requires { AreBelow (length names.now) places.items }
    ensures { result.items ≡ map (name_at names.now) places.items }
{
    for place in places.iter_mut() {
        *place = names[*place as usize];
    }
    places
}

/// The firings of rows of places, which take over the lists of the rows.
fn firings_of(alloc: Global, names: &[u32], rows: Vec<Row>) -> Result<Items<Firing>, AllocError>
    requires { All (λ row. AreBelow (length names.now) row.names.items) rows.items }
    ensures { IfOk result (λ firings. map names_in firings ≡ map (λ row. map (name_at names.now) row.names.items) rows.items) }
{
    let mut firings = Vec::with_capacity(alloc, rows.len())?;
    for row in rows {
        let names = Items::from_vec(named(names, row.names));
        firings.push(Firing { names })?;
    }
    Ok(Items::from_vec(firings))
}

/// The table of the region that has these automata.
pub fn table_of_automata(
    alloc: Global,
    net: &Net,
    node_names: &NodeNames,
    region: u32,
    automata: &[u32],
) -> Result<RegionTable, ProductRefusal>
    requires checked { IsChecked net.now }
    requires node_names { AreNodeNames net.now node_names.now }
    requires rising { IsStrictlyIncreasing automata.now }
    requires below { All (λ x. x < length net.now.channels + net.now.nodes) automata.now }
    ensures region { IfOk result (λ table. table.region ≡ region) }
    ensures table { IfOk result (λ table. (root : AnyAutomaton) → AreRegionAutomata net.now root automata.now → IsTableOf net.now root table.growth (map names_in table.firings)) }
    ensures refused { IfErr result (λ why. (root : AnyAutomaton) → AreRegionAutomata net.now root automata.now → Refuses net.now root region why) }
{
    let made = web_of(alloc, net, node_names, automata)?;
    match table_of(alloc, made.web) {
        Ok(table) => {
            let firings = firings_of(alloc, made.names.as_slice(), table.rows)?;
            Ok(RegionTable {
                region,
                growth: table.growth,
                firings,
            })
        }
        Err(why) => Err(refusal(region, why)),
    }
}
