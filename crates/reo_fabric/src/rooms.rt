//! The rooms of all regions, whose sizes are counted in one pass each.
ghost use Rattle.std.specs.Prelude.{◌≡◌, ℕ, ◌+◌, ◌<◌, ◌^◌, length, nat_eq, All, IfOk};
ghost use Rattle.reo_fabric.specs.Fabric.{IsLawfulFabric};
ghost use Rattle.reo_fabric.specs.inside.Whole.{EachAt, IsRoomOf};
ghost use Rattle.reo_fabric.specs.inside.Counts.{AreCounts, CountsOne};

use crate::fabric::{CellSpec, Fabric, PortSpec};
use crate::room::Room;
use std::alloc::{AllocError, Global};

/// Counts one more for a region.
fn count_one(counts: &mut [usize], region: u32)
    requires within { region < length counts.old }
    requires few { All (λ count. count + 1 < 2 ^ 64) counts.old }
    ensures { CountsOne region counts.old counts.new }
{
    counts[region as usize] += 1;
}

/// From how many cells each region takes.
fn takes_counts(alloc: Global, cells: &[CellSpec], regions: u32) -> Result<Vec<usize>, AllocError>
    requires { All (λ cell. cell.taker < regions) cells.now }
    ensures { IfOk result (λ counts. AreCounts (λ region cell. nat_eq cell.taker region) regions cells.now counts.items) }
{
    let mut counts = vec![in alloc; 0usize; regions as usize]?;
    for cell in cells {
        count_one(counts.as_mut_slice(), cell.taker);
    }
    Ok(counts)
}

/// How many cells each region fills.
fn fills_counts(alloc: Global, cells: &[CellSpec], regions: u32) -> Result<Vec<usize>, AllocError>
    requires { All (λ cell. cell.filler < regions) cells.now }
    ensures { IfOk result (λ counts. AreCounts (λ region cell. nat_eq cell.filler region) regions cells.now counts.items) }
{
    let mut counts = vec![in alloc; 0usize; regions as usize]?;
    for cell in cells {
        count_one(counts.as_mut_slice(), cell.filler);
    }
    Ok(counts)
}

/// How many ports are at each region.
fn ports_counts(alloc: Global, ports: &[PortSpec], regions: u32) -> Result<Vec<usize>, AllocError>
    requires { All (λ port. port.region < regions) ports.now }
    ensures { IfOk result (λ counts. AreCounts (λ region port. nat_eq port.region region) regions ports.now counts.items) }
{
    let mut counts = vec![in alloc; 0usize; regions as usize]?;
    for port in ports {
        count_one(counts.as_mut_slice(), port.region);
    }
    Ok(counts)
}

/// A room for each region.
pub(crate) fn all_rooms(alloc: Global, fabric: &Fabric) -> Result<Vec<Room>, AllocError>
    requires { IsLawfulFabric fabric.now }
    ensures len { IfOk result (λ rooms. length rooms.items ≡ fabric.now.regions) }
    ensures made { IfOk result (λ rooms. EachAt (IsRoomOf fabric.now) rooms.items) }
{
    let takes = takes_counts(alloc, fabric.cells.as_slice(), fabric.regions)?;
    let fills = fills_counts(alloc, fabric.cells.as_slice(), fabric.regions)?;
    let ports = ports_counts(alloc, fabric.ports.as_slice(), fabric.regions)?;
    let mut rooms = Vec::new(alloc);
    for region in 0..fabric.regions {
        let at = region as usize;
        rooms.push(Room::with_most(alloc, region, takes[at], fills[at], ports[at])?)?;
    }
    Ok(rooms)
}
