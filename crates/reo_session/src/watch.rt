//! Who waits at each port, and which regions may fire.
ghost use Rattle.std.specs.Prelude.{◌≡◌, ℕ, ◌≤◌, ◌<◌, length, map, slice_get, slice_set, Some, IfOk, not};
ghost use Rattle.std.specs.List.{list_all};
ghost use Rattle.reo_session.specs.Watch.{AreAsleep, HasPlacesOf, IsAsleep, IsWatch, WakesAt, WakesFor};

use reo_fabric::{CellSpec, EntryRef, Fabric, PortSpec};
use reo_value::Value;
use sqlite_items::at;
use std::alloc::{AllocError, Global};

/// Who waits at each port, and which regions may fire: no other has a choice.
#[derive(Drop)]
pub(crate) struct Watch {
    /// By port, the component whose operation was offered there last.
    pub waiting: Vec<usize>,
    /// By region, whether it may fire.
    pub awake: Vec<bool>,
    /// By port, its region.
    pub regions: Vec<u32>,
    /// By cell, the region that fills it.
    pub fillers: Vec<u32>,
    /// By cell, the region that takes from it.
    pub takers: Vec<u32>,
}

fn regions_of(alloc: Global, ports: &[PortSpec]) -> Result<Vec<u32>, AllocError>
    ensures { IfOk result (λ regions. regions.items ≡ map (λ port. port.region) ports.now) }
{
    ports.iter().map(|port| port.region).collect(alloc)
}

fn fillers_of(alloc: Global, cells: &[CellSpec]) -> Result<Vec<u32>, AllocError>
    ensures { IfOk result (λ fillers. fillers.items ≡ map (λ cell. cell.filler) cells.now) }
{
    cells.iter().map(|cell| cell.filler).collect(alloc)
}

fn takers_of(alloc: Global, cells: &[CellSpec]) -> Result<Vec<u32>, AllocError>
    ensures { IfOk result (λ takers. takers.items ≡ map (λ cell. cell.taker) cells.now) }
{
    cells.iter().map(|cell| cell.taker).collect(alloc)
}

/// Wakes the region that a table has at a place.
fn wake(awake: &mut Vec<bool>, table: &[u32], place: u32)
    ensures long { length awake.new.items ≡ length awake.old.items }
    ensures were { (region : ℕ) → IsAsleep awake.new.items region → IsAsleep awake.old.items region }
    ensures apart { (region : ℕ) → IsAsleep awake.new.items region → slice_get table.now place ≡ Some region → ⊥ }
{
    let Some(region) = at(table, place as usize) else {
        return;
    };
    let region = *region as usize;
    if region < awake.len() {
        awake[region] = true;
    }
}

/// Wakes the regions that a table has at these places.
fn wake_at(awake: &mut Vec<bool>, table: &[u32], places: &[(u32, Value)])
    ensures { WakesAt table.now places.now awake.old.items awake.new.items }
{
    for place in places {
        wake(awake, table, place.0);
    }
}

impl Watch {
    /// A watch of a fabric in which all regions may fire, and nobody waits.
    pub fn new(alloc: Global, fabric: &Fabric) -> Result<Watch, AllocError>
        ensures watch { IfOk result (IsWatch fabric.now) }
        ensures waiting { IfOk result (λ watch. length watch.waiting.items ≡ length fabric.now.ports) }
        ensures awake { IfOk result (λ watch. (region : ℕ) → IsAsleep watch.awake.items region → ⊥) }
    {
        Ok(Watch {
            waiting: vec![in alloc; 0; fabric.ports.len()]?,
            awake: vec![in alloc; true; fabric.regions as usize]?,
            regions: regions_of(alloc, fabric.ports.as_slice())?,
            fillers: fillers_of(alloc, fabric.cells.as_slice())?,
            takers: takers_of(alloc, fabric.cells.as_slice())?,
        })
    }

    /// Wakes the region of a port at which a component waits from now on.
    pub fn wait(&mut self, port: u32, component: usize)
        requires { port < length self.old.waiting.items }
        ensures places { HasPlacesOf self.old self.new }
        ensures waiting { self.new.waiting.items ≡ slice_set self.old.waiting.items port component }
        ensures were { (region : ℕ) → IsAsleep self.new.awake.items region → IsAsleep self.old.awake.items region }
        ensures apart { (region : ℕ) → IsAsleep self.new.awake.items region → slice_get self.old.regions.items port ≡ Some region → ⊥ }
    {
        self.waiting[port as usize] = component;
        wake(&mut self.awake, &self.regions, port);
    }

    /// Wakes the regions that have a place which the entry names.
    pub fn wake_for(&mut self, entry: &EntryRef<'_>)
        ensures { WakesFor entry.now self.old self.new }
    {
        wake_at(&mut self.awake, &self.fillers, entry.takes());
        wake_at(&mut self.awake, &self.takers, entry.takes());
        wake_at(&mut self.awake, &self.fillers, entry.fills());
        wake_at(&mut self.awake, &self.takers, entry.fills());
        wake_at(&mut self.awake, &self.regions, entry.puts());
        wake_at(&mut self.awake, &self.regions, entry.gets());
    }
}

/// How many marks are looked at together.
const STRIDE: u32 = 64;

/// Whether none of these is awake. All are looked at, many at once.
fn none_awake(marks: &[bool]) -> bool
    ensures { result ≡ list_all not marks.now }
{
    let mut none = true;
    for mark in marks {
        none &= !*mark;
    }
    none
}

fn is_awake(awake: &[bool], region: u32) -> bool {
    match awake.get(region as usize) {
        Some(mark) => *mark,
        None => false,
    }
}

/// A later region before which all from the first on are asleep.
fn leap_asleep(awake: &[bool], from: u32, to: u32) -> u32
    requires from { from ≤ to }
    requires to { to ≤ length awake.now }
    ensures after { from ≤ result }
    ensures within { result ≤ to }
    ensures asleep { AreAsleep awake.now from result }
{
    let mut region = from;
    while to - region >= STRIDE {
        if !none_awake(&awake[region as usize..(region + STRIDE) as usize]) {
            return region;
        }
        region += STRIDE;
    }
    region
}

/// The least region from one number up to another that is awake, or the end.
pub(crate) fn skip_asleep(awake: &[bool], from: u32, to: u32) -> u32
    requires from { from ≤ to }
    requires to { to ≤ length awake.now }
    ensures after { from ≤ result }
    ensures within { result ≤ to }
    ensures asleep { AreAsleep awake.now from result }
{
    if is_awake(awake, from) {
        return from;
    }
    let mut region = leap_asleep(awake, from, to);
    while region < to {
        if awake[region as usize] {
            return region;
        }
        region += 1;
    }
    region
}
