//! The readings of all regions, made in one pass over the cells and one over the ports.
ghost use Rattle.std.specs.Prelude.{◌≡◌, ℕ, ◌<◌, ◌^◌, ◌||◌, List, [], length, nat_eq, All, IfOk, OnOk};
ghost use Rattle.reo_fabric.specs.declared.fabric.Fabric.{Fabric as AnyFabric};
ghost use Rattle.reo_fabric.specs.Fabric.{IsLawfulFabric};
ghost use Rattle.reo_fabric.specs.Reading.{places_of};
ghost use Rattle.reo_fabric.specs.inside.Whole.{EachAt, IsUnread};
ghost use Rattle.reo_fabric.specs.inside.Readings.{AreReadings, listed};

use crate::fabric::{CellSpec, Fabric, PortSpec};
use crate::reading::Reading;
use sqlite_items::Items;
use std::alloc::{AllocError, Global};

/// A reading for each region, without places.
fn without_places(alloc: Global, regions: u32) -> Result<Vec<Reading>, AllocError>
    ensures { IfOk result (λ readings. AreReadings regions (λ region. []) (λ region. []) readings.items) }
{
    let mut readings = Vec::new(alloc);
    for region in 0..regions {
        readings.push(Reading {
            region,
            round: 0,
            clock: 0,
            cells: Items::new(alloc),
            ports: Items::new(alloc),
        })?;
    }
    Ok(readings)
}

/// Lists a cell for a region.
fn push_cell(readings: &mut Vec<Reading>, region: u32, place: u32) -> Result<(), AllocError>
    requires { region < length readings.old.items }
    ensures len { OnOk result (length readings.new.items ≡ length readings.old.items) }
    ensures are { (regions : ℕ) (cells ports : ℕ → List ℕ) → AreReadings regions cells ports readings.old.items → OnOk result (AreReadings regions (listed (nat_eq region) place cells) ports readings.new.items) }
{
    readings[region as usize].cells.push((place, 0))?;
    Ok(())
}

/// Lists a port for a region.
fn push_port(readings: &mut Vec<Reading>, region: u32, place: u32) -> Result<(), AllocError>
    requires { region < length readings.old.items }
    ensures len { OnOk result (length readings.new.items ≡ length readings.old.items) }
    ensures are { (regions : ℕ) (cells ports : ℕ → List ℕ) → AreReadings regions cells ports readings.old.items → OnOk result (AreReadings regions cells (listed (nat_eq region) place ports) readings.new.items) }
{
    readings[region as usize].ports.push((place, 0, 0))?;
    Ok(())
}

/// Lists a cell for its filler and for its taker, once where they are one region.
fn list_cell(
    readings: &mut Vec<Reading>,
    place: u32,
    filler: u32,
    taker: u32,
) -> Result<(), AllocError>
    requires filler { filler < length readings.old.items }
    requires taker { taker < length readings.old.items }
    ensures len { OnOk result (length readings.new.items ≡ length readings.old.items) }
    ensures are { (regions : ℕ) (cells ports : ℕ → List ℕ) → AreReadings regions cells ports readings.old.items → OnOk result (AreReadings regions (listed (λ region. nat_eq filler region || nat_eq taker region) place cells) ports readings.new.items) }
{
    push_cell(readings, filler, place)?;
    if filler == taker {
        return Ok(());
    }
    push_cell(readings, taker, place)?;
    Ok(())
}

fn list_cells(readings: &mut Vec<Reading>, cells: &[CellSpec]) -> Result<(), AllocError>
    requires few { length cells.now < 2 ^ 31 }
    requires fillers { All (λ cell. cell.filler < length readings.old.items) cells.now }
    requires takers { All (λ cell. cell.taker < length readings.old.items) cells.now }
    ensures len { OnOk result (length readings.new.items ≡ length readings.old.items) }
    ensures are { (regions : ℕ) (ports : ℕ → List ℕ) → AreReadings regions (λ region. []) ports readings.old.items → OnOk result (AreReadings regions (λ region. places_of (λ cell. nat_eq cell.filler region || nat_eq cell.taker region) 0 cells.now) ports readings.new.items) }
{
    for (place, cell) in cells.iter().enumerate() {
        list_cell(readings, place as u32, cell.filler, cell.taker)?;
    }
    Ok(())
}

fn list_ports(readings: &mut Vec<Reading>, ports: &[PortSpec]) -> Result<(), AllocError>
    requires few { length ports.now < 2 ^ 31 }
    requires regions { All (λ port. port.region < length readings.old.items) ports.now }
    ensures len { OnOk result (length readings.new.items ≡ length readings.old.items) }
    ensures are { (regions : ℕ) (cells : ℕ → List ℕ) → AreReadings regions cells (λ region. []) readings.old.items → OnOk result (AreReadings regions cells (λ region. places_of (λ port. nat_eq port.region region) 0 ports.now) readings.new.items) }
{
    for (place, port) in ports.iter().enumerate() {
        push_port(readings, port.region, place as u32)?;
    }
    Ok(())
}

/// A reading for each region, with words that say nothing.
pub(crate) fn all_unread(alloc: Global, fabric: &Fabric) -> Result<Vec<Reading>, AllocError>
    requires { IsLawfulFabric fabric.now }
    ensures len { IfOk result (λ readings. length readings.items ≡ fabric.now.regions) }
    ensures unread { IfOk result (λ readings. EachAt (IsUnread fabric.now) readings.items) }
{
    let mut readings = without_places(alloc, fabric.regions)?;
    list_cells(&mut readings, fabric.cells.as_slice())?;
    list_ports(&mut readings, fabric.ports.as_slice())?;
    Ok(readings)
}
