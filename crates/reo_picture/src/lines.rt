//! The lines, each appended to a buffer with its LF.
ghost use Rattle.std.specs.Prelude.{◌≡◌, IfOk};
ghost use Rattle.std.specs.String.{string_bytes};
ghost use Rattle.reo_picture.specs.Buffer.{Adds};
ghost use Rattle.reo_picture.specs.Picture.{ended, region_line, node_front, node_line, own_or_first, region_of_node, port_line, arrow_style, mark_word, mark_text, arrow_front, arrow_head, arrow_line, datum_text, box_front, arrow_in, arrow_out, box_line, channel_line};

use crate::quote::push_quoted;
use reo_cut::Cut;
use reo_net::{Channel, Kind, Net, Port};
use reo_print::push_rest;
use reo_trace::{bytes_at, push_bytes, push_decimal, push_value};
use reo_value::{Lexicon, Way};
use std::alloc::{AllocError, Global};

/// Appends a line with the LF behind it.
pub(crate) fn push_line(buffer: &mut Vec<u8>, line: &[u8]) -> Result<(), AllocError>
    ensures { Adds buffer.old buffer.new result (ended line.now) }
{
    push_bytes(buffer, line)?;
    push_bytes(buffer, b"\n")
}

/// The line of a region.
pub(crate) fn region_line(alloc: Global, region: u32) -> Result<String, AllocError>
    ensures { IfOk result (λ text. string_bytes text ≡ region_line region) }
{
    let number = u64::from(region) + 1;
    let colour = region % 8 + 1;
    format!(in alloc;
        "subgraph cluster_{number} {{ label=\"region {number}\"; style=\"rounded,filled\"; color=gray; fillcolor=\"/pastel28/{colour}\" }}"
    )
}

fn node_front(alloc: Global, region: u32, node: u32) -> Result<String, AllocError>
    ensures { IfOk result (λ text. string_bytes text ≡ node_front region node) }
{
    let number = u64::from(region) + 1;
    format!(in alloc; "subgraph cluster_{number} {{ n{node} [label=")
}

fn own_or_first(own: Option<u32>) -> u32
    ensures { result ≡ own_or_first own }
{
    match own {
        Some(region) => region,
        None => 0,
    }
}

fn region_of_node(net: &Net, cut: &Cut, node: u32) -> u32
    ensures { result ≡ region_of_node net.now cut.now node }
{
    let number = net.channels().len() + node as usize;
    match cut.region_of.as_slice().get(number) {
        Some(own) => own_or_first(*own),
        None => 0,
    }
}

fn push_node_front(
    alloc: Global,
    buffer: &mut Vec<u8>,
    net: &Net,
    cut: &Cut,
    node: u32,
) -> Result<(), AllocError>
    ensures { Adds buffer.old buffer.new result (node_front (region_of_node net.now cut.now node) node) }
{
    let front = node_front(alloc, region_of_node(net, cut, node), node)?;
    push_bytes(buffer, front.as_bytes())
}

/// Appends the line of a node.
pub(crate) fn push_node(
    alloc: Global,
    buffer: &mut Vec<u8>,
    net: &Net,
    nodes: &Lexicon,
    cut: &Cut,
    node: u32,
) -> Result<(), AllocError>
    ensures { Adds buffer.old buffer.new result (ended (node_line net.now nodes.now cut.now node)) }
{
    push_node_front(alloc, buffer, net, cut, node)?;
    push_quoted(buffer, bytes_at(nodes, node as usize))?;
    push_bytes(buffer, b"] }")?;
    push_bytes(buffer, b"\n")
}

/// The line of a port.
pub(crate) fn port_line(alloc: Global, number: u32, port: Port) -> Result<String, AllocError>
    ensures { IfOk result (λ text. string_bytes text ≡ port_line number port.way port.node) }
{
    let node = port.node;
    match port.way {
        Way::Put => format!(in alloc; "p{number} [label=\"put\"]; p{number} -> n{node}"),
        Way::Get => format!(in alloc; "p{number} [label=\"get\"]; n{node} -> p{number}"),
    }
}

fn push_arrow_style(buffer: &mut Vec<u8>, kind: &Kind) -> Result<(), AllocError>
    ensures { Adds buffer.old buffer.new result (arrow_style kind.now) }
{
    match kind {
        Kind::Sync => push_bytes(buffer, b""),
        Kind::Lossy => push_bytes(buffer, b"style=dashed, "),
        Kind::Drain => push_bytes(
            buffer,
            b"dir=both, arrowtail=inv, arrowhead=inv, minlen=0, ",
        ),
        Kind::Fifo(_) => push_bytes(buffer, b""),
        Kind::Filter(_) => push_bytes(buffer, b""),
        Kind::Transform(_) => push_bytes(buffer, b""),
    }
}

fn push_mark_word(buffer: &mut Vec<u8>, kind: &Kind) -> Result<(), AllocError>
    ensures { Adds buffer.old buffer.new result (mark_word kind.now) }
{
    match kind {
        Kind::Sync => push_bytes(buffer, b""),
        Kind::Lossy => push_bytes(buffer, b""),
        Kind::Drain => push_bytes(buffer, b""),
        Kind::Fifo(_) => push_bytes(buffer, b""),
        Kind::Filter(_) => push_bytes(buffer, b": filter"),
        Kind::Transform(_) => push_bytes(buffer, b": transform"),
    }
}

/// What stands at an arrow.
fn mark_of(alloc: Global, texts: &Lexicon, number: u32, kind: &Kind) -> Result<Vec<u8>, AllocError>
    ensures { IfOk result (λ mark. mark.items ≡ mark_text texts.now number kind.now) }
{
    let mut mark = Vec::new(alloc);
    push_decimal(&mut mark, u64::from(number) + 1)?;
    push_mark_word(&mut mark, kind)?;
    push_rest(&mut mark, texts, kind)?;
    Ok(mark)
}

fn arrow_front(alloc: Global, a: u32, b: u32) -> Result<String, AllocError>
    ensures { IfOk result (λ text. string_bytes text ≡ arrow_front a b) }
{
    format!(in alloc; "n{a} -> n{b} [")
}

fn push_arrow_head(alloc: Global, buffer: &mut Vec<u8>, channel: &Channel) -> Result<(), AllocError>
    ensures { Adds buffer.old buffer.new result (arrow_head channel.now) }
{
    let front = arrow_front(alloc, channel.a, channel.b)?;
    push_bytes(buffer, front.as_bytes())?;
    push_arrow_style(buffer, &channel.kind)?;
    push_bytes(buffer, b"label=")
}

fn push_arrow(
    alloc: Global,
    buffer: &mut Vec<u8>,
    texts: &Lexicon,
    number: u32,
    channel: &Channel,
) -> Result<(), AllocError>
    ensures { Adds buffer.old buffer.new result (arrow_line texts.now number channel.now) }
{
    let mark = mark_of(alloc, texts, number, &channel.kind)?;
    push_arrow_head(alloc, buffer, channel)?;
    push_quoted(buffer, mark.as_slice())?;
    push_bytes(buffer, b"]")
}

fn push_datum(buffer: &mut Vec<u8>, texts: &Lexicon, kind: &Kind) -> Result<(), AllocError>
    ensures { Adds buffer.old buffer.new result (datum_text texts.now kind.now) }
{
    match kind {
        Kind::Sync => push_bytes(buffer, b""),
        Kind::Lossy => push_bytes(buffer, b""),
        Kind::Drain => push_bytes(buffer, b""),
        Kind::Fifo(None) => push_bytes(buffer, b""),
        Kind::Fifo(Some(first)) => push_value(buffer, texts, *first),
        Kind::Filter(_) => push_bytes(buffer, b""),
        Kind::Transform(_) => push_bytes(buffer, b""),
    }
}

/// What a buffer holds at first.
fn datum_of(alloc: Global, texts: &Lexicon, kind: &Kind) -> Result<Vec<u8>, AllocError>
    ensures { IfOk result (λ datum. datum.items ≡ datum_text texts.now kind.now) }
{
    let mut datum = Vec::new(alloc);
    push_datum(&mut datum, texts, kind)?;
    Ok(datum)
}

fn box_front(alloc: Global, number: u32) -> Result<String, AllocError>
    ensures { IfOk result (λ text. string_bytes text ≡ box_front number) }
{
    let channel = u64::from(number) + 1;
    format!(in alloc; "c{channel} [label=")
}

fn arrow_in(alloc: Global, number: u32, a: u32) -> Result<String, AllocError>
    ensures { IfOk result (λ text. string_bytes text ≡ arrow_in number a) }
{
    let channel = u64::from(number) + 1;
    format!(in alloc; "]; n{a} -> c{channel}")
}

fn arrow_out(alloc: Global, number: u32, b: u32) -> Result<String, AllocError>
    ensures { IfOk result (λ text. string_bytes text ≡ arrow_out number b) }
{
    let channel = u64::from(number) + 1;
    format!(in alloc; " [arrowhead=none, label=\"{channel}\"]; c{channel} -> n{b}")
}

fn push_box(
    alloc: Global,
    buffer: &mut Vec<u8>,
    texts: &Lexicon,
    number: u32,
    channel: &Channel,
) -> Result<(), AllocError>
    ensures { Adds buffer.old buffer.new result (box_line texts.now number channel.now) }
{
    let front = box_front(alloc, number)?;
    let datum = datum_of(alloc, texts, &channel.kind)?;
    let arrow_in = arrow_in(alloc, number, channel.a)?;
    let arrow_out = arrow_out(alloc, number, channel.b)?;
    push_bytes(buffer, front.as_bytes())?;
    push_quoted(buffer, datum.as_slice())?;
    push_bytes(buffer, arrow_in.as_bytes())?;
    push_bytes(buffer, arrow_out.as_bytes())
}

fn push_bare_channel(
    alloc: Global,
    buffer: &mut Vec<u8>,
    texts: &Lexicon,
    number: u32,
    channel: &Channel,
) -> Result<(), AllocError>
    ensures { Adds buffer.old buffer.new result (channel_line texts.now number channel.now) }
{
    if channel.kind.is_fifo() {
        push_box(alloc, buffer, texts, number, channel)
    } else {
        push_arrow(alloc, buffer, texts, number, channel)
    }
}

/// Appends the line of a channel.
pub(crate) fn push_channel(
    alloc: Global,
    buffer: &mut Vec<u8>,
    texts: &Lexicon,
    number: u32,
    channel: &Channel,
) -> Result<(), AllocError>
    ensures { Adds buffer.old buffer.new result (ended (channel_line texts.now number channel.now)) }
{
    push_bare_channel(alloc, buffer, texts, number, channel)?;
    push_bytes(buffer, b"\n")
}
