//! The fabric of a circuit that is cut.
ghost use Rattle.std.specs.Prelude.{◌≡◌, ℕ, ◌<◌, ◌^◌, length, map, slice_get, All, None, Some, IfOk, IfSome};
ghost use Rattle.std.specs.Option.{option_map_or};
ghost use Rattle.reo_cut.specs.Cut.{IsCut};
ghost use Rattle.reo_fabric.specs.Fabric.{IsLawfulFabric};
ghost use Rattle.reo_plan.specs.Fabric.{held_at_first, cell_spec, IsFabricOf};
ghost use Rattle.reo_plan.specs.inside.Ports.{port_spec, port_specs};

use reo_cut::{CellCut, Cut};
use reo_fabric::{CellSpec, Fabric, PortSpec};
use reo_net::{Channel, Kind, Net, Port};
use reo_value::Value;
use sqlite_items::{Items, at};
use std::alloc::{AllocError, Global};

fn held_at_first(kind: &Kind) -> Option<Value>
    ensures { result ≡ held_at_first kind.now }
{
    match kind {
        Kind::Sync => None,
        Kind::Lossy => None,
        Kind::Drain => None,
        Kind::Fifo(first) => *first,
        Kind::Filter(_) => None,
        Kind::Transform(_) => None,
    }
}

/// What the buffer with the number of this channel holds at first.
fn first_of(channels: &[Channel], number: u32) -> Option<Value>
    ensures { result ≡ option_map_or (λ channel. held_at_first channel.kind) (slice_get channels.now number) None }
{
    match at(channels, number as usize) {
        Some(channel) => held_at_first(&channel.kind),
        None => None,
    }
}

fn cell_spec(net: &Net, cell: &CellCut) -> CellSpec
    ensures { result ≡ cell_spec net.now cell.now }
{
    CellSpec {
        filler: cell.filler,
        taker: cell.taker,
        first: first_of(net.channels(), cell.channel),
    }
}

fn cell_specs(alloc: Global, net: &Net, cells: &[CellCut]) -> Result<Items<CellSpec>, AllocError>
    ensures { IfOk result (λ specs. specs ≡ map (cell_spec net.now) cells.now) }
{
    let mut specs = Vec::with_capacity(alloc, cells.len())?;
    for cell in cells {
        specs.extend_from_slice(&[cell_spec(net, cell)])?;
    }
    Ok(Items::from_vec(specs))
}

fn port_spec(ports: &[Port], regions: &[u32], owners: &[Option<u32>], port: usize) -> PortSpec
    requires within { port < length ports.now }
    requires regions { length regions.now ≡ length ports.now }
    requires owners { length owners.now ≡ length ports.now }
    ensures { result ≡ port_spec ports.now regions.now owners.now port }
{
    PortSpec {
        way: ports[port].way,
        region: regions[port],
        owner: owners[port],
    }
}

/// The ports, each with its region and its owner.
fn port_specs(
    alloc: Global,
    ports: &[Port],
    regions: &[u32],
    owners: &[Option<u32>],
) -> Result<Items<PortSpec>, AllocError>
    requires regions { length regions.now ≡ length ports.now }
    requires owners { length owners.now ≡ length ports.now }
    ensures { IfOk result (λ specs. specs ≡ port_specs ports.now regions.now owners.now) }
{
    let mut specs = Vec::with_capacity(alloc, ports.len())?;
    for port in 0..ports.len() {
        specs.push(port_spec(ports, regions, owners, port))?;
    }
    Ok(Items::from_vec(specs))
}

/// The cells and ports of a circuit that is cut so, whose ports these parties use, where there are `parties` of them.
pub fn fabric(
    alloc: Global,
    net: &Net,
    cut: &Cut,
    owners: &[Option<u32>],
    parties: u32,
) -> Result<Fabric, AllocError>
    requires cut { IsCut net.now cut.now }
    requires owners { length owners.now ≡ length net.now.ports }
    requires parties { All (λ owner. IfSome owner (λ party. party < parties)) owners.now }
    requires few { parties < 2 ^ 31 }
    ensures lawful { IfOk result IsLawfulFabric }
    ensures fabric { IfOk result (IsFabricOf net.now cut.now owners.now parties) }
{
    let ports = net.ports();
    Ok(Fabric {
        regions: cut.regions,
        parties,
        cells: cell_specs(alloc, net, cut.cells.as_slice())?,
        ports: port_specs(alloc, ports, cut.port_region.as_slice(), owners)?,
    })
}
