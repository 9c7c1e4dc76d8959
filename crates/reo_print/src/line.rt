//! Lines of the circuit and of scripts.
ghost use Rattle.std.specs.Prelude.{codes};
ghost use Rattle.reo_document.specs.declared.line.Line.TheVariants.{Channel as AnyChannel};
ghost use Rattle.reo_print.specs.Buffer.{Adds};
ghost use Rattle.reo_print.specs.Front.{AreFronts};
ghost use Rattle.reo_print.specs.Canonical.{kind_word, kind_rest, way_word, circuit_line, operation_line};

use crate::front::{Fronts, push_get, push_put};
use crate::function::push_function;
use crate::guard::{Level, push_guard};
use reo_document::Line;
use reo_net::{Channel, Kind, Port};
use reo_trace::{bytes_at, push_bytes, push_value};
use reo_value::{Lexicon, Op, Way};
use std::alloc::AllocError;

fn push_kind(buffer: &mut Vec<u8>, kind: &Kind) -> Result<(), AllocError>
    ensures { Adds buffer.old buffer.new result (kind_word kind.now) }
{
    match kind {
        Kind::Sync => push_bytes(buffer, b"sync "),
        Kind::Lossy => push_bytes(buffer, b"lossy "),
        Kind::Drain => push_bytes(buffer, b"drain "),
        Kind::Fifo(_) => push_bytes(buffer, b"fifo "),
        Kind::Filter(_) => push_bytes(buffer, b"filter "),
        Kind::Transform(_) => push_bytes(buffer, b"transform "),
    }
}

/// Appends what stands behind the nodes of a channel: its guard, its function, or its datum.
pub fn push_rest(buffer: &mut Vec<u8>, texts: &Lexicon, kind: &Kind) -> Result<(), AllocError>
    ensures { Adds buffer.old buffer.new result (kind_rest texts.now kind.now) }
{
    match kind {
        Kind::Fifo(Some(first)) => {
            push_bytes(buffer, b" full ")?;
            push_value(buffer, texts, *first)
        }
        Kind::Filter(guard) => {
            push_bytes(buffer, b" ")?;
            push_guard(buffer, texts, guard, Level::AsGuard)
        }
        Kind::Transform(function) => {
            push_bytes(buffer, b" ")?;
            push_function(buffer, texts, function)
        }
        Kind::Sync => push_bytes(buffer, b""),
        Kind::Lossy => push_bytes(buffer, b""),
        Kind::Drain => push_bytes(buffer, b""),
        Kind::Fifo(None) => push_bytes(buffer, b""),
    }
}

fn push_way(buffer: &mut Vec<u8>, way: Way) -> Result<(), AllocError>
    ensures { Adds buffer.old buffer.new result (way_word way) }
{
    match way {
        Way::Put => push_bytes(buffer, b"in "),
        Way::Get => push_bytes(buffer, b"out "),
    }
}

fn push_channel(
    buffer: &mut Vec<u8>,
    nodes: &Lexicon,
    texts: &Lexicon,
    channel: &Channel,
) -> Result<(), AllocError>
    ensures { Adds buffer.old buffer.new result (circuit_line nodes.now texts.now (AnyChannel channel.now)) }
{
    push_kind(buffer, &channel.kind)?;
    push_bytes(buffer, bytes_at(nodes, channel.a as usize))?;
    push_bytes(buffer, b" ")?;
    push_bytes(buffer, bytes_at(nodes, channel.b as usize))?;
    push_rest(buffer, texts, &channel.kind)?;
    push_bytes(buffer, b"\n")
}

pub(crate) fn push_line(
    buffer: &mut Vec<u8>,
    nodes: &Lexicon,
    texts: &Lexicon,
    line: &Line,
) -> Result<(), AllocError>
    ensures { Adds buffer.old buffer.new result (circuit_line nodes.now texts.now line.now) }
{
    match line {
        Line::Port(way, node) => {
            push_way(buffer, *way)?;
            push_bytes(buffer, bytes_at(nodes, *node as usize))?;
            push_bytes(buffer, b"\n")
        }
        Line::Channel(channel) => push_channel(buffer, nodes, texts, channel),
    }
}

fn end_line(buffer: &mut Vec<u8>) -> Result<(), AllocError>
    ensures { Adds buffer.old buffer.new result (codes "\n") }
{
    buffer.push(b'\n')?;
    Ok(())
}

pub(crate) fn push_operation(
    buffer: &mut Vec<u8>,
    fronts: &Fronts,
    nodes: &Lexicon,
    texts: &Lexicon,
    ports: &[Port],
    operation: Op,
) -> Result<(), AllocError>
    requires { AreFronts nodes.now ports.now fronts.now }
    ensures { Adds buffer.old buffer.new result (operation_line nodes.now texts.now ports.now operation) }
{
    match operation {
        Op::Put(port, value) => {
            push_put(buffer, fronts, nodes, ports, port as usize)?;
            push_value(buffer, texts, value)?;
            end_line(buffer)
        }
        Op::Get(port) => push_get(buffer, fronts, nodes, ports, port as usize),
    }
}
