//! A document, as callers see it.
ghost use Rattle.std.specs.Prelude.{◌≡◌, ◌≤◌, length, IfOk, IfErr};
ghost use Rattle.std.specs.List.{filter_map};
ghost use Rattle.reo_net.specs.Checks.{IsCircuit};
ghost use Rattle.reo_document.specs.Document.{IsDocument, circuit_of, channel_in, port_in};
ghost use Rattle.reo_document.specs.Spells.{Spells, IsSpelled};
ghost use Rattle.reo_document.specs.Reading.{IsRefusalOf};

use crate::builder::Builder;
use crate::line::Line;
use crate::read::read_parts;
use crate::refusal::TextRefusal;
use reo_net::{Channel, Port, RawCircuit};
use reo_value::{Lexicon, Op};
use sqlite_items::Items;
use std::alloc::{AllocError, Global};
use std::marker::Model;

/// A circuit with names for its nodes, and the components that use it, each with its script.
#[derive(Drop)]
pub struct Document {
    lines: Vec<Line>,
    nodes: Lexicon,
    texts: Lexicon,
    people: Lexicon,
    scripts: Vec<Items<Op>>,
}

impl Model for Document {
    ghost use Rattle.reo_document.specs.Document.{DocumentData};
    ghost use Rattle.reo_document.specs.Spells.{IsSpelled};
    ghost use Rattle.reo_guard.specs.contracts.guard.Guard as guard;
    ghost use Rattle.std.specs.Coded.{codes};

    ghost Value = { DocumentData };

    ghost coded = { Prim.hlevel (codes, guard.the_row.coded) };

    ghost view = { λ d. record { lines = d.lines.items; nodes = d.nodes; texts = d.texts; people = d.people; scripts = d.scripts.items } };

    ghost invariant = { λ d. IsSpelled (record { lines = d.lines.items; nodes = d.nodes; texts = d.texts; people = d.people; scripts = d.scripts.items }) };
}

/// The document that the bytes spell, or their one refusal.
pub fn read_document(alloc: Global, bytes: &[u8]) -> Result<Document, TextRefusal>
    requires { length bytes.now ≤ 8388608 }
    ensures spells { IfOk result (Spells bytes.now) }
    ensures refused { IfErr result (IsRefusalOf bytes.now) }
{
    let parts = read_parts(alloc, bytes)?;
    let Builder {
        lines,
        nodes,
        texts,
        people,
        scripts,
        ..
    } = parts;
    Ok(Document {
        lines,
        nodes,
        texts,
        people,
        scripts,
    })
}

impl Document {
    /// The lines of the circuit.
    pub fn lines(&self) -> &[Line]
        ensures lines { result.now ≡ self.now.lines }
    {
        self.lines.as_slice()
    }

    /// The names of the nodes.
    pub fn nodes(&self) -> &Lexicon
        ensures nodes { result.now ≡ self.now.nodes }
    {
        &self.nodes
    }

    /// The texts that are data.
    pub fn texts(&self) -> &Lexicon
        ensures texts { result.now ≡ self.now.texts }
    {
        &self.texts
    }

    /// The names of the components.
    pub fn people(&self) -> &Lexicon
        ensures people { result.now ≡ self.now.people }
    {
        &self.people
    }

    /// What each component does.
    pub fn scripts(&self) -> &[Items<Op>]
        ensures scripts { result.now ≡ self.now.scripts }
        ensures document { IsDocument self.now }
        ensures spelled { IsSpelled self.now }
    {
        self.scripts.as_slice()
    }

    /// The ports, by number.
    pub fn ports(&self, alloc: Global) -> Result<Items<Port>, AllocError>
        ensures ports { IfOk result (λ ports. ports ≡ filter_map port_in self.now.lines) }
    {
        ports_in(alloc, self.lines.as_slice())
    }

    /// The circuit by itself.
    pub fn circuit(&self, alloc: Global) -> Result<RawCircuit, AllocError>
        ensures circuit { IfOk result (λ c. c ≡ circuit_of self.now) }
        ensures is_circuit { IfOk result IsCircuit }
    {
        let channels = channels_in(alloc, self.lines.as_slice())?;
        let ports = ports_in(alloc, self.lines.as_slice())?;
        Ok(RawCircuit {
            nodes: self.nodes.len(),
            texts: self.texts.len(),
            channels,
            ports,
        })
    }
}

fn channels_in(alloc: Global, lines: &[Line]) -> Result<Items<Channel>, AllocError>
    ensures { IfOk result (λ channels. channels ≡ filter_map channel_in lines.now) }
{
    let mut channels = Vec::new(alloc);
    for line in lines {
        if let Some(channel) = line.channel() {
            channels.push(channel.try_clone(alloc)?)?;
        }
    }
    Ok(Items::from_vec(channels))
}

fn ports_in(alloc: Global, lines: &[Line]) -> Result<Items<Port>, AllocError>
    ensures { IfOk result (λ ports. ports ≡ filter_map port_in lines.now) }
{
    let mut ports = Vec::new(alloc);
    for line in lines {
        if let Some(port) = line.port() {
            ports.extend_from_slice(&[port])?;
        }
    }
    Ok(Items::from_vec(ports))
}
