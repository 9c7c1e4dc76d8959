//! The checks on a circuit, and a circuit that passed them.
ghost use Rattle.std.specs.Prelude.{◌≡◌, ◌+◌, ◌*◌, ◌<◌, ◌⊎◌, length, filter_map, All, None, Some, IfOk, IfErr, OnOk};
ghost use Rattle.reo_value.specs.declared.op.Way.TheVariants.{Put, Get};
ghost use Rattle.reo_net.specs.Names.{name_count};
ghost use Rattle.reo_net.specs.Tables.{Marks, handing_edge, IsKeyTwiceBelow, IsPassBelow, IsSourceBelow, comes_out, is_marked};
ghost use Rattle.reo_graph.specs.Paths.{IsLeast};
ghost use Rattle.reo_net.specs.Checks.{IsCircuit, HasTwoPorts, IsMixed, IsChecked};
ghost use Rattle.reo_net.specs.Loops.{IsOnLoop};
ghost use Rattle.reo_net.specs.Refusals.{Refuses};

use crate::circuit::{Channel, Port, RawCircuit};
use reo_graph::least_on_loop;
use reo_value::Way;
use sqlite_items::Items;
use std::alloc::{AllocError, Global};
use std::marker::Model;
use thiserror::Error;

const MOST_CHANNELS: usize = 512;

const MOST_PORTS: usize = 128;

/// A circuit that passed the checks.
#[derive(Drop)]
pub struct Net {
    circuit: RawCircuit,
}

impl Model for Net {
    ghost use Rattle.reo_net.specs.declared.circuit.RawCircuit.{RawCircuit as Circuit};
    ghost use Rattle.reo_net.specs.Checks.{IsChecked};
    ghost use Rattle.reo_guard.specs.contracts.guard.Guard as guard;
    ghost use Rattle.std.specs.Coded.{codes};

    ghost Value = { Circuit };

    ghost coded = { Prim.hlevel (codes, guard.the_row.coded) };

    ghost view = { λ n. n.circuit };

    ghost invariant = { λ n. IsChecked n.circuit };
}

/// Why a circuit is refused.
#[derive(Clone, Copy, Debug, PartialEq, Eq, Error)]
pub enum CheckRefusal {
    #[error("{0} channels, 512 allowed")]
    TooManyChannels(usize),
    #[error("{0} ports, 128 allowed")]
    TooManyPorts(usize),
    #[error("node {0}: two ports")]
    PortTwice(u32),
    #[error("node {0}: mixed node as port")]
    MixedPort(u32),
    #[error("node {0}: synchronous loop")]
    SyncLoop(u32),
    #[error("out of memory")]
    NoMemory,
}

impl From<AllocError> for CheckRefusal {
    ghost use Rattle.std.specs.Prelude.{◌≡◌};
    ghost use Rattle.reo_net.specs.declared.net.CheckRefusal.TheVariants.{NoMemory};

    ghost from_gives = { λ _ refusal. refusal ≡ NoMemory };

    fn from(_: AllocError) -> Self {
        CheckRefusal::NoMemory
    }
}

// The least of a number and one that may be there.
fn lesser(least: Option<u32>, node: u32) -> u32
    ensures { IsLeast (λ n. (n ≡ node) ⊎ (least ≡ Some n)) (Some result) }
{
    match least {
        Some(other) if other < node => other,
        _ => node,
    }
}

// A table of the nodes where data come out of a channel, at its end b.
fn sink_table(alloc: Global, nodes: u32, channels: &[Channel]) -> Result<Vec<bool>, AllocError>
    requires { All (λ channel. channel.b < nodes) channels.now }
    ensures { IfOk result (λ table. Marks table.items nodes (IsPassBelow (λ channel. channel.b) comes_out channels.now (length channels.now))) }
{
    let mut table = vec![in alloc; false; nodes as usize]?;
    for channel in channels {
        if channel.kind.comes_out_at_b() {
            table[channel.b as usize] = true;
        }
    }
    Ok(table)
}

// A table of the nodes where data go into a channel: at its end a, or at end b of a drain.
fn source_table(alloc: Global, nodes: u32, channels: &[Channel]) -> Result<Vec<bool>, AllocError>
    requires ends_a { All (λ channel. channel.a < nodes) channels.now }
    requires ends_b { All (λ channel. channel.b < nodes) channels.now }
    ensures { IfOk result (λ table. Marks table.items nodes (IsSourceBelow channels.now (length channels.now))) }
{
    let mut table = vec![in alloc; false; nodes as usize]?;
    for channel in channels {
        table[channel.a as usize] = true;
        if !channel.kind.comes_out_at_b() {
            table[channel.b as usize] = true;
        }
    }
    Ok(table)
}

// The least node that stands at two ports.
fn least_repeated(alloc: Global, nodes: u32, ports: &[Port]) -> Result<Option<u32>, AllocError>
    requires { All (λ port. port.node < nodes) ports.now }
    ensures { IfOk result (IsLeast (IsKeyTwiceBelow (λ port. port.node) ports.now (length ports.now))) }
{
    let mut seen = vec![in alloc; false; nodes as usize]?;
    let mut least = None;
    for port in ports {
        if seen[port.node as usize] {
            least = Some(lesser(least, port.node));
        }
        seen[port.node as usize] = true;
    }
    Ok(least)
}

// The least node with two ports.
fn node_with_two_ports(alloc: Global, raw: &RawCircuit) -> Result<Option<u32>, AllocError>
    requires { IsCircuit raw.now }
    ensures { IfOk result (IsLeast (HasTwoPorts raw.now)) }
{
    let least = least_repeated(alloc, raw.nodes, raw.ports.as_slice())?;
    Ok(least)
}

// The least node of a port that the table for its way marks.
fn least_marked(ports: &[Port], sinks: &[bool], sources: &[bool]) -> Option<u32>
    requires sinks { All (λ port. port.node < length sinks.now) ports.now }
    requires sources { All (λ port. port.node < length sources.now) ports.now }
    ensures { IsLeast (IsPassBelow (λ port. port.node) (is_marked sinks.now sources.now) ports.now (length ports.now)) result }
{
    let mut least = None;
    for port in ports {
        let table = match port.way {
            Way::Put => sinks,
            Way::Get => sources,
        };
        if table[port.node as usize] {
            least = Some(lesser(least, port.node));
        }
    }
    least
}

// The least mixed node.
fn mixed_node(alloc: Global, raw: &RawCircuit) -> Result<Option<u32>, AllocError>
    requires { IsCircuit raw.now }
    ensures { IfOk result (IsLeast (IsMixed raw.now)) }
{
    let sinks = sink_table(alloc, raw.nodes, raw.channels.as_slice())?;
    let sources = source_table(alloc, raw.nodes, raw.channels.as_slice())?;
    let least = least_marked(raw.ports.as_slice(), &sinks, &sources);
    Ok(least)
}

// The nodes from which and to which the channel hands data on at once, where it does.
fn handing_edge(channel: &Channel) -> Option<(u32, u32)>
    ensures { result ≡ handing_edge channel.now }
{
    if channel.kind.hands_on() {
        Some((channel.a, channel.b))
    } else {
        None
    }
}

fn handing_edges(alloc: Global, channels: &[Channel]) -> Result<Vec<(u32, u32)>, AllocError>
    ensures { IfOk result (λ edges. edges.items ≡ filter_map handing_edge channels.now) }
{
    let mut edges = Vec::new(alloc);
    for channel in channels {
        if let Some(edge) = handing_edge(channel) {
            edges.push(edge)?;
        }
    }
    Ok(edges)
}

// The least node on a synchronous loop.
fn node_on_loop(alloc: Global, raw: &RawCircuit) -> Result<Option<u32>, AllocError>
    ensures { IfOk result (IsLeast (IsOnLoop raw.now)) }
{
    let edges = handing_edges(alloc, raw.channels.as_slice())?;
    let least = least_on_loop(alloc, &edges)?;
    Ok(least)
}

fn copy_channels(alloc: Global, channels: &[Channel]) -> Result<Items<Channel>, AllocError>
    ensures { IfOk result (λ copy. copy ≡ channels.now) }
{
    let mut copy = Items::new(alloc);
    for channel in channels {
        copy.push(channel.try_clone(alloc)?)?;
    }
    Ok(copy)
}

fn copied(alloc: Global, raw: &RawCircuit) -> Result<RawCircuit, AllocError>
    ensures { IfOk result (λ copy. copy ≡ raw.now) }
{
    Ok(RawCircuit {
        nodes: raw.nodes,
        texts: raw.texts,
        channels: copy_channels(alloc, raw.channels.as_slice())?,
        ports: Items::from_slice(alloc, raw.ports.as_slice())?,
    })
}

/// A copy of the circuit, where it passes the checks. For an accepted circuit its time is in proportion to the nodes,
/// channels and ports, up to sorting; the least node of a refused loop is looked for by what can be reached.
pub fn check(alloc: Global, raw: &RawCircuit) -> Result<Net, CheckRefusal>
    requires { IsCircuit raw.now }
    ensures copy { IfOk result (λ net. net ≡ raw.now) }
    ensures checked { OnOk result (IsChecked raw.now) }
    ensures refused { IfErr result (Refuses raw.now) }
{
    if raw.channels.len() > MOST_CHANNELS {
        return Err(CheckRefusal::TooManyChannels(raw.channels.len()));
    }
    if raw.ports.len() > MOST_PORTS {
        return Err(CheckRefusal::TooManyPorts(raw.ports.len()));
    }
    if let Some(node) = node_with_two_ports(alloc, raw)? {
        return Err(CheckRefusal::PortTwice(node));
    }
    if let Some(node) = mixed_node(alloc, raw)? {
        return Err(CheckRefusal::MixedPort(node));
    }
    if let Some(node) = node_on_loop(alloc, raw)? {
        return Err(CheckRefusal::SyncLoop(node));
    }
    let circuit = copied(alloc, raw)?;
    Ok(Net { circuit })
}

impl Net {
    /// How many nodes there are.
    pub fn nodes(&self) -> u32
        ensures nodes { result ≡ self.now.nodes }
        ensures checked { IsChecked self.now }
    {
        self.circuit.nodes
    }

    /// How many texts the constants may name.
    pub fn texts(&self) -> u32
        ensures { result ≡ self.now.texts }
    {
        self.circuit.texts
    }

    pub fn channels(&self) -> &[Channel]
        ensures channels { result.now ≡ self.now.channels }
        ensures checked { IsChecked self.now }
    {
        self.circuit.channels.as_slice()
    }

    pub fn ports(&self) -> &[Port]
        ensures ports { result.now ≡ self.now.ports }
        ensures checked { IsChecked self.now }
    {
        self.circuit.ports.as_slice()
    }

    /// How many names there are: the ports, and two ends of each channel.
    pub fn names(&self) -> u32
        ensures names { result ≡ name_count self.now }
        ensures checked { IsChecked self.now }
    {
        (self.circuit.ports.len() + 2 * self.circuit.channels.len()) as u32
    }
}
