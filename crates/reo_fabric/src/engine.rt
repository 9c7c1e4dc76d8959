//! An engine on one thread.
ghost use Rattle.std.specs.Prelude.{◌≡◌, ◌<◌, ◌^◌, ◌↔◌, length, slice_get, slice_index_or, None, Some, IsSome, IfSome, IfNone, IsNone, IfOk, map};
ghost use Rattle.reo_fabric.specs.declared.fabric.PortSpec.{PortSpec as AnyPort};
ghost use Rattle.reo_fabric.specs.declared.port_state.PortState.TheVariants.{Idle, Offered};
ghost use Rattle.reo_value.specs.declared.op.Way.TheVariants.{Put};
ghost use Rattle.reo_fabric.specs.Fabric.{IsLawfulFabric};
ghost use Rattle.reo_value.specs.Code.{IsValue};
ghost use Rattle.reo_fabric.specs.Decider.{Fits};
ghost use Rattle.reo_fabric.specs.Laws.{AreValues};
ghost use Rattle.reo_fabric.specs.Engine.{port_at, started, engine_reading, Fires, answer_of, with_port, taken_answer};

use crate::carry::carry_out;
use crate::decider::Decider;
use crate::entry_ref::EntryRef;
use crate::fabric::{CellSpec, Fabric, PortSpec};
use crate::port_state::PortState;
use crate::reading::Reading;
use crate::readings::all_unread;
use crate::room::Room;
use crate::rooms::all_rooms;
use crate::words::read_region;
use reo_value::{Value, word_of};
use std::alloc::{AllocError, Global};
use std::marker::Model;

/// Cells and ports on one thread, whose regions fire as a decider chooses. Only its start takes memory.
#[derive(Drop)]
pub struct PlainEngine<D: Decider + Drop> {
    fabric: Fabric,
    decider: D,
    cells: Vec<Option<Value>>,
    ports: Vec<PortState>,
    readings: Vec<Reading>,
    rooms: Vec<Room>,
    count: u64,
    last: Option<u32>,
}

impl<D: Decider + Drop> Model for PlainEngine<D> {
    ghost use Rattle.reo_fabric.specs.Engine.{port_at, EngineState};
    ghost use Rattle.reo_fabric.specs.inside.Whole.{IsEngine, last_entry};

    ghost Value = { EngineState D };

    ghost view = { λ e. record {
      fabric = e.fabric;
      decider = e.decider;
      cells = e.cells.items;
      ports = e.ports.items;
      count = e.count;
      last = last_entry e.rooms.items e.last;
    } };

    ghost invariant = { λ e. IsEngine e.fabric (D.allows e.decider) e.cells.items e.ports.items e.readings.items e.rooms.items e.last };
}

impl<D: Decider + Drop> PlainEngine<D> {
    /// An engine in which nothing has happened yet.
    pub fn start(alloc: Global, fabric: Fabric, decider: D) -> Result<PlainEngine<D>, AllocError>
        requires lawful { IsLawfulFabric fabric }
        requires fits { Fits fabric (D.allows decider) }
        ensures { IfOk result (λ engine. engine ≡ started fabric decider) }
    {
        let cells = first_values(alloc, fabric.cells.as_slice())?;
        let ports = idle_ports(alloc, fabric.ports.as_slice())?;
        let readings = all_unread(alloc, &fabric)?;
        let rooms = all_rooms(alloc, &fabric)?;
        Ok(PlainEngine {
            fabric,
            decider,
            cells,
            ports,
            readings,
            rooms,
            count: 0,
            last: None,
        })
    }

    /// Carries out the entry that the decider chooses for the region, and gives its number. Nothing changes where none is
    /// allowed.
    pub fn step(&mut self, region: u32) -> Option<u64>
        requires region { region < self.old.fabric.regions }
        requires few { self.old.count < 2 ^ 63 }
        ensures none { IsNone result ↔ (D.first_choice self.old.decider region (engine_reading self.old region) ≡ None) }
        ensures quiet { IfNone result (self.new ≡ self.old) }
        ensures fires { IfSome result (Fires (D.allows self.old.decider) (D.first_choice self.old.decider) region self.old self.new) }
    {
        let at = region as usize;
        read_region(&mut self.readings[at], &self.cells, &self.ports);
        let choice = self.decider.choose(region, &self.readings[at])?;
        self.decider
            .entry_into(choice, &self.readings[at], &mut self.rooms[at]);
        let number = self.count;
        carry_out(
            &mut self.cells,
            &mut self.ports,
            &self.rooms[at].entry(),
            number,
        );
        self.count += 1;
        self.last = Some(region);
        Some(number)
    }

    /// What is in each cell.
    pub fn cells(&self) -> &[Option<Value>]
        ensures { result.now ≡ self.now.cells }
    {
        self.cells.as_slice()
    }

    /// The last entry that was carried out.
    pub fn last(&self) -> Option<EntryRef<'_>>
        ensures { result ≡ self.now.last }
    {
        let room = self.rooms.get(self.last? as usize)?;
        Some(room.entry())
    }

    /// Offers a value at a put port, or none at a get port.
    pub fn post(&mut self, port: u32, offer: Option<Value>)
        requires idle { slice_get self.old.ports port ≡ Some Idle }
        requires way { (spec : AnyPort) → slice_get self.old.fabric.ports port ≡ Some spec → (spec.way ≡ Put) ↔ IsSome offer }
        ensures { self.new ≡ with_port self.old port (Offered offer) }
    {
        self.ports[port as usize] = PortState::Offered(offer);
    }

    /// The answer at a port, which is idle then.
    pub fn answer(&mut self, port: u32) -> Option<(Value, u64)>
        requires { port < length self.old.ports }
        ensures answer { result ≡ answer_of (port_at self.old.ports port) }
        ensures after { self.new ≡ taken_answer self.old port }
    {
        let state = self.ports[port as usize];
        match state {
            PortState::Answered(value, number) => {
                self.ports[port as usize] = PortState::Idle;
                Some((value, number))
            }
            _ => None,
        }
    }
}

/// The value, whose code tells that it is one.
fn known(value: &Value) -> Value
    ensures same { result ≡ value.now }
    ensures value { IsValue value.now }
{
    let _code = word_of(*value);
    *value
}

fn known_content(held: &Option<Value>) -> Option<Value>
    ensures same { result ≡ held.now }
    ensures value { IfSome held.now IsValue }
{
    match held {
        Some(value) => Some(known(value)),
        None => None,
    }
}

/// What is in the cells at first.
fn first_values(alloc: Global, cells: &[CellSpec]) -> Result<Vec<Option<Value>>, AllocError>
    ensures first { IfOk result (λ state. state.items ≡ map (λ cell. cell.first) cells.now) }
    ensures values { IfOk result (λ state. AreValues state.items) }
{
    let mut state = Vec::with_capacity(alloc, cells.len())?;
    for cell in cells {
        state.push(known_content(&cell.first))?;
    }
    Ok(state)
}

fn idle_ports(alloc: Global, ports: &[PortSpec]) -> Result<Vec<PortState>, AllocError>
    ensures { IfOk result (λ states. states.items ≡ map (λ port. Idle) ports.now) }
{
    let mut states = Vec::with_capacity(alloc, ports.len())?;
    for _port in ports {
        states.extend_from_slice(&[PortState::Idle])?;
    }
    Ok(states)
}
