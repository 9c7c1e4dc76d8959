//! A document as it is read, line by line.
ghost use Rattle.std.specs.Prelude.{◌≡◌, ◌<◌, ◌^◌, ◌+◌, ◌≤◌, length, nat_le, Some, IsTrue, IfOk, OnOk};
ghost use Rattle.reo_value.specs.Lexicon.{added, place_of};
ghost use Rattle.reo_sentence.specs.Numbered.{number_in};
ghost use Rattle.reo_sentence.specs.Said.{name_at, IsNameIn, PortSaid, ChannelSaid, ComponentSaid};
ghost use Rattle.reo_document.specs.Placed.{port_from, port_at, is_taken, operation_count, misplaced_at, misplaced, number_at, with_operation, with_said};
ghost use Rattle.reo_document.specs.Spells.{empty};
ghost use Rattle.reo_document.specs.Builder.{data_of, operation_at, noted_at, is_before, Claims, KnowsScripts, KnowsPorts};

use crate::line::Line;
use crate::refusal::Misplaced;
use reo_net::{Channel, Kind};
use reo_sentence::Name;
use reo_value::{LexRefusal, Lexicon, Op, Value, Way};
use sqlite_items::Items;
use std::alloc::{AllocError, Global};

const MOST_COMPONENTS: u32 = 128;

const MOST_OPERATIONS: usize = 100_000;

/// The parts of a document that are known so far.
#[derive(Drop)]
pub(crate) struct Builder {
    pub(crate) lines: Vec<Line>,
    pub(crate) nodes: Lexicon,
    pub(crate) texts: Lexicon,
    pub(crate) people: Lexicon,
    pub(crate) scripts: Vec<Items<Op>>,
    // How many operations more there may be.
    pub(crate) room: usize,
    // The first component that uses each port, where one does.
    pub(crate) owners: Vec<Option<usize>>,
    // The first port of each node, where it has one.
    pub(crate) ports: Vec<Option<(u32, Way)>>,
    pub(crate) port_count: u32,
    // The node of the last operation.
    pub(crate) recent: u32,
}

impl Builder {
    pub(crate) fn new(alloc: Global) -> Builder
        ensures empty { data_of result ≡ empty }
        ensures scripts { KnowsScripts result }
        ensures ports { KnowsPorts result }
    {
        Builder {
            lines: Vec::new(alloc),
            nodes: Lexicon::new(alloc),
            texts: Lexicon::new(alloc),
            people: Lexicon::new(alloc),
            scripts: Vec::new(alloc),
            room: MOST_OPERATIONS,
            owners: Vec::new(alloc),
            ports: Vec::new(alloc),
            port_count: 0,
            recent: 0,
        }
    }

    /// The node of this name, which often is that of the last operation.
    #[inline(always)]
    pub(crate) fn node(&self, line: &[u8], name: Name) -> Option<u32>
        requires { IsNameIn line.now name }
        ensures { result ≡ place_of self.now.nodes (name_at line.now name) }
    {
        if self.is_recent(&line[name.start as usize..name.end as usize]) {
            return Some(self.recent);
        }
        self.nodes.find(name_in(line, name))
    }

    // The node of the last operation has this name.
    #[inline(always)]
    fn is_recent(&self, name: &[u8]) -> bool
        ensures { IsTrue result → place_of self.now.nodes name.now ≡ Some self.now.recent }
    {
        self.recent < self.nodes.len() && self.nodes.text_or_empty(self.recent).as_bytes() == name
    }

    /// Why no component of this name may begin here, if so.
    pub(crate) fn misplaced_component(&self, line: &[u8], name: Name) -> Option<Misplaced>
        requires { IsNameIn line.now name }
        ensures { result ≡ misplaced (data_of self.now) (ComponentSaid (name_at line.now name)) }
    {
        if self.people.len() >= MOST_COMPONENTS {
            return Some(Misplaced::TooManyComponents);
        }
        if self.people.find(name_in(line, name)).is_some() {
            return Some(Misplaced::ComponentTwice);
        }
        None
    }

    /// The first port at this node.
    #[inline(always)]
    pub(crate) fn port(&self, node: Option<u32>) -> Option<(u32, Way)>
        requires { KnowsPorts self.now }
        ensures { result ≡ port_at (data_of self.now) node }
    {
        self.port_at(node?)
    }

    // The first port at a node.
    #[inline(always)]
    fn port_at(&self, node: u32) -> Option<(u32, Way)>
        requires { KnowsPorts self.now }
        ensures { result ≡ port_from 0 self.now.lines.items node }
    {
        match self.ports.get(node as usize) {
            Some(port) => *port,
            None => None,
        }
    }

    /// Why the last component may not use this port this way, if so.
    #[inline(always)]
    pub(crate) fn misplaced_at(&self, port: Option<(u32, Way)>, way: Way) -> Option<Misplaced>
        requires { KnowsScripts self.now }
        ensures { result ≡ misplaced_at (data_of self.now) way port }
    {
        let Some((number, other)) = port else {
            return Some(Misplaced::UnknownPort);
        };
        if other != way {
            return Some(Misplaced::WrongWay);
        }
        if self.is_taken(number) {
            return Some(Misplaced::PortShared);
        }
        if self.is_full() {
            return Some(Misplaced::TooManyOps);
        }
        None
    }

    // There are as many operations as a document may have.
    #[inline(always)]
    fn is_full(&self) -> bool
        requires { KnowsScripts self.now }
        ensures { result ≡ nat_le 100000 (operation_count self.now.scripts.items) }
    {
        self.room == 0
    }

    // A component that is not the last one has an operation at the port.
    #[inline(always)]
    fn is_taken(&self, port: u32) -> bool
        requires { KnowsScripts self.now }
        ensures { result ≡ is_taken self.now.scripts.items port }
    {
        is_before(self.scripts.len().saturating_sub(1), self.owner(port))
    }

    #[inline(always)]
    fn owner(&self, port: u32) -> Option<usize>
        ensures { result ≡ noted_at self.now.owners.items port }
    {
        match self.owners.get(port as usize) {
            Some(owner) => *owner,
            None => None,
        }
    }

    /// Adds a port at the node of this name.
    pub(crate) fn add_port(&mut self, alloc: Global, node: &str, way: Way) -> Result<(), AllocError>
        requires room { length self.old.nodes < 16777216 }
        requires lines { length self.old.lines.items < 2 ^ 31 }
        requires short { length node.now ≤ 64 }
        requires scripts { KnowsScripts self.old }
        requires ports { KnowsPorts self.old }
        ensures exact { OnOk result (data_of self.new ≡ with_said (data_of self.old) (PortSaid way node.now)) }
        ensures scripts { OnOk result (KnowsScripts self.new) }
        ensures ports { OnOk result (KnowsPorts self.new) }
        ensures lines { OnOk result (length self.new.lines.items ≤ length self.old.lines.items + 1) }
    {
        let node = number(alloc, &mut self.nodes, node)?;
        self.lines.push(Line::Port(way, node))?;
        claim_port(&mut self.ports, node, (self.port_count, way))?;
        self.port_count += 1;
        Ok(())
    }

    /// Adds a channel from the node of one name to that of another.
    pub(crate) fn add_channel(
        &mut self,
        alloc: Global,
        kind: Kind,
        a: &str,
        b: &str,
    ) -> Result<(), AllocError>
        requires room { length self.old.nodes + 2 ≤ 16777216 }
        requires short { length a.now ≤ 64 }
        requires also { length b.now ≤ 64 }
        requires scripts { KnowsScripts self.old }
        requires ports { KnowsPorts self.old }
        ensures exact { OnOk result (data_of self.new ≡ with_said (data_of self.old) (ChannelSaid kind a.now b.now)) }
        ensures scripts { OnOk result (KnowsScripts self.new) }
        ensures ports { OnOk result (KnowsPorts self.new) }
        ensures lines { OnOk result (length self.new.lines.items ≤ length self.old.lines.items + 1) }
    {
        let first = number(alloc, &mut self.nodes, a)?;
        let second = number(alloc, &mut self.nodes, b)?;
        self.lines.push(Line::Channel(Channel {
            kind,
            a: first,
            b: second,
        }))?;
        Ok(())
    }

    /// Adds a component of this name, with an empty script.
    pub(crate) fn add_component(&mut self, alloc: Global, name: &str) -> Result<(), AllocError>
        requires room { length self.old.people < 16777216 }
        requires short { length name.now ≤ 64 }
        requires scripts { KnowsScripts self.old }
        requires ports { KnowsPorts self.old }
        ensures exact { OnOk result (data_of self.new ≡ with_said (data_of self.old) (ComponentSaid name.now)) }
        ensures scripts { OnOk result (KnowsScripts self.new) }
        ensures ports { OnOk result (KnowsPorts self.new) }
        ensures lines { OnOk result (self.new.lines.items ≡ self.old.lines.items) }
    {
        number(alloc, &mut self.people, name)?;
        self.scripts.push(Items::new(alloc))?;
        Ok(())
    }

    /// Adds an operation at this port, the first one of the node, to the last script.
    #[inline(always)]
    pub(crate) fn add_operation(
        &mut self,
        node: Option<u32>,
        port: Option<(u32, Way)>,
        value: Option<Value>,
    ) -> Result<(), AllocError>
        requires scripts { KnowsScripts self.old }
        requires ports { KnowsPorts self.old }
        ensures exact { OnOk result (data_of self.new ≡ record (data_of self.old) { scripts = with_operation self.old.scripts.items (operation_at (number_at port) value) }) }
        ensures scripts { OnOk result (KnowsScripts self.new) }
        ensures ports { OnOk result (KnowsPorts self.new) }
        ensures lines { OnOk result (self.new.lines.items ≡ self.old.lines.items) }
    {
        if self.scripts.is_empty() {
            return Ok(());
        }
        let port = number_at(port);
        let last = self.scripts.len() - 1;
        self.recent = node.unwrap_or(0);
        push_last(&mut self.scripts, port, value)?;
        self.room = self.room.saturating_sub(1);
        claim(&mut self.owners, port, last)
    }
}

// The number of a port, or 0 where there is none.
#[inline(always)]
fn number_at(port: Option<(u32, Way)>) -> u32
    ensures { result ≡ number_at port }
{
    match port {
        Some((number, _)) => number,
        None => 0,
    }
}

// A put of the value at the port, or a get there.
#[inline(always)]
fn operation_at(port: u32, value: Option<Value>) -> Op
    ensures { result ≡ operation_at port value }
{
    match value {
        Some(value) => Op::Put(port, value),
        None => Op::Get(port),
    }
}

// The number of a name, which is added where it is new.
fn number(alloc: Global, names: &mut Lexicon, name: &str) -> Result<u32, AllocError>
    requires room { length names.old < 16777216 }
    requires short { length name.now ≤ 64 }
    ensures names { OnOk result (names.new ≡ added names.old name.now) }
    ensures number { IfOk result (λ n. n ≡ number_in (added names.old name.now) name.now) }
{
    match names.add(alloc, name) {
        Ok(number) => Ok(number),
        Err(LexRefusal::TooLong) => unreachable!(),
        Err(LexRefusal::Full) => unreachable!(),
        Err(LexRefusal::NoMemory) => Err(AllocError),
    }
}

/// The name at this place of a line.
pub(crate) fn name_in(line: &[u8], name: Name) -> &str
    requires { IsNameIn line.now name }
    ensures { result.now ≡ name_at line.now name }
{
    let Ok(text) = str::from_utf8(&line[name.start as usize..name.end as usize]) else {
        unreachable!()
    };
    text
}

// Adds an operation to the last script.
#[inline(always)]
fn push_last(
    scripts: &mut Vec<Items<Op>>,
    port: u32,
    value: Option<Value>,
) -> Result<(), AllocError>
    requires { 0 < length scripts.old.items }
    ensures { OnOk result (scripts.new.items ≡ with_operation scripts.old.items (operation_at port value)) }
{
    let last = scripts.len() - 1;
    let operation = operation_at(port, value);
    scripts[last].push(operation)?;
    Ok(())
}

#[inline(always)]
fn is_before(count: usize, owner: Option<usize>) -> bool
    ensures { result ≡ is_before count owner }
{
    match owner {
        Some(owner) => owner < count,
        None => false,
    }
}

// Notes the component that uses a port, where none did.
#[inline(always)]
fn claim(owners: &mut Vec<Option<usize>>, port: u32, owner: usize) -> Result<(), AllocError>
    ensures { OnOk result (Claims owners.old.items owners.new.items port owner) }
{
    let port = port as usize;
    'more: while owners.len() <= port {
        owners.push(None)?;
    }
    owners[port] = owners[port].or(Some(owner));
    Ok(())
}

// Notes the first port of a node.
fn claim_port(
    ports: &mut Vec<Option<(u32, Way)>>,
    node: u32,
    port: (u32, Way),
) -> Result<(), AllocError>
    ensures { OnOk result (Claims ports.old.items ports.new.items node port) }
{
    let node = node as usize;
    'more: while ports.len() <= node {
        ports.push(None)?;
    }
    ports[node] = ports[node].or(Some(port));
    Ok(())
}
