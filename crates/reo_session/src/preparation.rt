//! What a session goes by: a net, its cut and the tables of its regions.
ghost use Rattle.std.specs.Prelude.{◌≡◌, [], ◌∷◌, ◌++◌, slice_get, Some, IfOk, IfErr, OnOk};
ghost use Rattle.reo_net.specs.Checks.{IsCircuit};
ghost use Rattle.reo_net.specs.Regions.{Automaton as AnyAutomaton};
ghost use Rattle.reo_automata.specs.NodeNames.{AreNodeNames};
ghost use Rattle.reo_cut.specs.Cut.{IsCut};
ghost use Rattle.reo_product.specs.Region.{AreMembers};
ghost use Rattle.reo_session.specs.Prepared.{AreRegionTables, Declines, DeclinesRegion, IsPrepared, IsTableOfRegion, of_check, of_table};

use reo_automata::{NodeNames, names_of_nodes};
use reo_cut::{Cut, cut_of};
use reo_net::{CheckRefusal, Net, RawCircuit, check};
use reo_product::{Members, ProductRefusal, RegionTable, members_of, region_table_of};
use sqlite_items::Items;
use std::alloc::{AllocError, Global};
use thiserror::Error;

/// A net, its cut, and the tables of all its regions in their order.
#[derive(Drop)]
pub struct Prepared {
    pub net: Net,
    pub cut: Cut,
    pub tables: Items<RegionTable>,
}

/// Why there is no session of a circuit.
#[derive(Clone, Copy, Debug, PartialEq, Eq, Error)]
pub enum SessionRefusal {
    /// The circuit does not pass the checks.
    #[error("{0}")]
    Check(CheckRefusal),
    /// This is the least region that is too large, with the count that its table is refused with.
    #[error("region {0}: {1} is too large")]
    TooLarge(u32, u32),
    #[error("out of memory")]
    NoMemory,
}

impl From<AllocError> for SessionRefusal {
    ghost use Rattle.std.specs.Prelude.{◌≡◌};
    ghost use Rattle.reo_session.specs.declared.preparation.SessionRefusal.TheVariants.{NoMemory};

    ghost from_gives = { λ _ refusal. refusal ≡ NoMemory };

    fn from(_: AllocError) -> Self {
        SessionRefusal::NoMemory
    }
}

fn refused_check(refusal: CheckRefusal) -> SessionRefusal
    ensures { result ≡ of_check refusal }
{
    match refusal {
        CheckRefusal::NoMemory => SessionRefusal::NoMemory,
        refusal => SessionRefusal::Check(refusal),
    }
}

fn refused_table(refusal: ProductRefusal) -> SessionRefusal
    ensures { result ≡ of_table refusal }
{
    match refusal {
        ProductRefusal::TooLarge(region, count) => SessionRefusal::TooLarge(region, count),
        ProductRefusal::NoMemory => SessionRefusal::NoMemory,
    }
}

/// The net of a circuit that passes the checks.
fn checked(alloc: Global, raw: &RawCircuit) -> Result<Net, SessionRefusal>
    requires { IsCircuit raw.now }
    ensures net { IfOk result (λ net. net ≡ raw.now) }
    ensures refused { IfErr result (Declines raw.now) }
{
    match check(alloc, raw) {
        Ok(net) => Ok(net),
        Err(refusal) => Err(refused_check(refusal)),
    }
}

fn table_at(
    alloc: Global,
    net: &Net,
    cut: &Cut,
    members: &Members,
    node_names: &NodeNames,
    region: u32,
) -> Result<RegionTable, SessionRefusal>
    requires cut { IsCut net.now cut.now }
    requires members { AreMembers cut.now.region_of cut.now.regions members.now }
    requires node_names { AreNodeNames net.now node_names.now }
    ensures table { IfOk result (λ table. (is_cut : IsCut net.now cut.now) (root : AnyAutomaton) → slice_get is_cut.roots region ≡ Some root → IsTableOfRegion net.now region root table) }
    ensures refused { IfErr result (λ why. (is_cut : IsCut net.now cut.now) (root : AnyAutomaton) → slice_get is_cut.roots region ≡ Some root → DeclinesRegion net.now region root why) }
{
    match region_table_of(alloc, net, cut, members, node_names, region) {
        Ok(table) => Ok(table),
        Err(refusal) => Err(refused_table(refusal)),
    }
}

fn keep(tables: &mut Items<RegionTable>, table: RegionTable) -> Result<(), AllocError>
    ensures { OnOk result (tables.new ≡ tables.old ++ table ∷ []) }
{
    tables.push(table)?;
    Ok(())
}

/// The tables of all regions.
fn tables_of(alloc: Global, net: &Net, cut: &Cut) -> Result<Items<RegionTable>, SessionRefusal>
    requires cut { IsCut net.now cut.now }
    ensures tables { IfOk result (AreRegionTables net.now cut.now) }
    ensures refused { IfErr result (Declines net.now) }
{
    let _ = net.nodes();
    let members = members_of(alloc, net, cut)?;
    let node_names = names_of_nodes(alloc, net)?;
    let mut tables = Items::new(alloc);
    for region in 0..cut.regions {
        let table = table_at(alloc, net, cut, &members, &node_names, region)?;
        keep(&mut tables, table)?;
    }
    Ok(tables)
}

/// Checks a circuit, cuts it and makes the tables of its regions.
pub fn prepare(alloc: Global, raw: &RawCircuit) -> Result<Prepared, SessionRefusal>
    requires { IsCircuit raw.now }
    ensures prepared { IfOk result (IsPrepared raw.now) }
    ensures refused { IfErr result (Declines raw.now) }
{
    let net = checked(alloc, raw)?;
    let cut = cut_of(alloc, &net)?;
    let tables = tables_of(alloc, &net, &cut)?;
    Ok(Prepared { net, cut, tables })
}
