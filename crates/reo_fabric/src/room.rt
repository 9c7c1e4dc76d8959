//! An entry that is written without memory.
ghost use Rattle.std.specs.Prelude.{◌≡◌, ◌<◌, length, count_by, nat_eq, IfOk};
ghost use Rattle.reo_fabric.specs.inside.Counts.{room_for};
ghost use Rattle.reo_fabric.specs.Room.{room_of, begun, with_take, with_fill, with_put, with_get};

use crate::entry_ref::EntryRef;
use crate::fabric::{CellSpec, Fabric, PortSpec};
use crate::spare::Spare;
use reo_value::Value;
use std::alloc::{AllocError, Global};
use std::marker::Model;

/// An entry of a region with room for each of its cells and ports. Only making it takes memory.
#[derive(Drop)]
pub struct Room {
    region: u32,
    choice: u32,
    takes: Spare,
    fills: Spare,
    puts: Spare,
    gets: Spare,
}

impl Model for Room {
    ghost use Rattle.reo_fabric.specs.Room.{RoomState};

    ghost Value = { RoomState };

    ghost view = { λ r. record {
      entry = record {
        region = r.region;
        choice = r.choice;
        takes = r.takes.places;
        fills = r.fills.places;
        puts = r.puts.places;
        gets = r.gets.places;
      };
      most_takes = r.takes.most;
      most_fills = r.fills.most;
      most_puts = r.puts.most;
      most_gets = r.gets.most;
    } };
}

fn count_takes(cells: &[CellSpec], region: u32) -> usize
    ensures { result ≡ count_by (λ cell. nat_eq cell.taker region) cells.now }
{
    cells.iter().filter(|cell| cell.taker == region).count()
}

fn count_fills(cells: &[CellSpec], region: u32) -> usize
    ensures { result ≡ count_by (λ cell. nat_eq cell.filler region) cells.now }
{
    cells.iter().filter(|cell| cell.filler == region).count()
}

fn count_ports(ports: &[PortSpec], region: u32) -> usize
    ensures { result ≡ count_by (λ port. nat_eq port.region region) ports.now }
{
    ports.iter().filter(|port| port.region == region).count()
}

impl Room {
    /// A room for the entries of a region.
    pub fn new(alloc: Global, fabric: &Fabric, region: u32) -> Result<Room, AllocError>
        ensures { IfOk result (λ room. room ≡ room_of fabric.now region) }
    {
        let cells = fabric.cells.as_slice();
        let ports = count_ports(fabric.ports.as_slice(), region);
        let room = Room::with_most(
            alloc,
            region,
            count_takes(cells, region),
            count_fills(cells, region),
            ports,
        )?;
        Ok(room)
    }

    /// A room of a region for so many cells that it takes from, cells that it fills, and ports.
    pub(crate) fn with_most(
        alloc: Global,
        region: u32,
        takes: usize,
        fills: usize,
        ports: usize,
    ) -> Result<Room, AllocError>
        ensures { IfOk result (λ room. room ≡ room_for region takes fills ports) }
    {
        Ok(Room {
            region,
            choice: 0,
            takes: Spare::new(alloc, takes)?,
            fills: Spare::new(alloc, fills)?,
            puts: Spare::new(alloc, ports)?,
            gets: Spare::new(alloc, ports)?,
        })
    }

    pub fn entry(&self) -> EntryRef<'_>
        ensures { result ≡ self.now.entry }
    {
        EntryRef::new(
            self.region,
            self.choice,
            self.takes.as_slice(),
            self.fills.as_slice(),
            self.puts.as_slice(),
            self.gets.as_slice(),
        )
    }

    /// Begins an entry of this choice, which does nothing yet.
    pub fn begin(&mut self, choice: u32)
        ensures { self.new ≡ begun self.old choice }
    {
        self.choice = choice;
        self.takes.clear();
        self.fills.clear();
        self.puts.clear();
        self.gets.clear();
    }

    pub fn take(&mut self, cell: u32, value: Value)
        requires { length self.old.entry.takes < self.old.most_takes }
        ensures { self.new ≡ with_take self.old cell value }
    {
        self.takes.push(cell, value);
    }

    pub fn fill(&mut self, cell: u32, value: Value)
        requires { length self.old.entry.fills < self.old.most_fills }
        ensures { self.new ≡ with_fill self.old cell value }
    {
        self.fills.push(cell, value);
    }

    pub fn put(&mut self, port: u32, value: Value)
        requires { length self.old.entry.puts < self.old.most_puts }
        ensures { self.new ≡ with_put self.old port value }
    {
        self.puts.push(port, value);
    }

    pub fn get(&mut self, port: u32, value: Value)
        requires { length self.old.entry.gets < self.old.most_gets }
        ensures { self.new ≡ with_get self.old port value }
    {
        self.gets.push(port, value);
    }
}
