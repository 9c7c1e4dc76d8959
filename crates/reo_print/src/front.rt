//! How the lines of operations begin, made once for each port.
ghost use Rattle.std.specs.Prelude.{slice_get, IfOk, OnOk};
ghost use Rattle.reo_trace.specs.ReportText.{node_text};
ghost use Rattle.reo_print.specs.Buffer.{Adds};
ghost use Rattle.reo_print.specs.Canonical.{get_line, put_front};
ghost use Rattle.reo_print.specs.Front.{AreFronts, AreOf};

use reo_net::Port;
use reo_trace::{bytes_at, push_bytes};
use reo_value::Lexicon;
use sqlite_items::{Items, at};
use std::alloc::{AllocError, Global};

/// By port, the line of a put up to its value, and the line of a get.
#[derive(Drop)]
pub(crate) struct Fronts {
    pub(crate) puts: Items<Items<u8>>,
    pub(crate) gets: Items<Items<u8>>,
}

fn push_node(
    buffer: &mut Vec<u8>,
    nodes: &Lexicon,
    ports: &[Port],
    port: usize,
) -> Result<(), AllocError>
    ensures { Adds buffer.old buffer.new result (node_text nodes.now (slice_get ports.now port)) }
{
    match ports.get(port) {
        Some(port) => push_bytes(buffer, bytes_at(nodes, port.node as usize)),
        None => Ok(()),
    }
}

fn push_put_front(
    buffer: &mut Vec<u8>,
    nodes: &Lexicon,
    ports: &[Port],
    port: usize,
) -> Result<(), AllocError>
    ensures { Adds buffer.old buffer.new result (put_front nodes.now (slice_get ports.now port)) }
{
    push_bytes(buffer, b"put ")?;
    push_node(buffer, nodes, ports, port)?;
    push_bytes(buffer, b" ")
}

fn push_get_line(
    buffer: &mut Vec<u8>,
    nodes: &Lexicon,
    ports: &[Port],
    port: usize,
) -> Result<(), AllocError>
    ensures { Adds buffer.old buffer.new result (get_line nodes.now (slice_get ports.now port)) }
{
    push_bytes(buffer, b"get ")?;
    push_node(buffer, nodes, ports, port)?;
    push_bytes(buffer, b"\n")
}

fn put_fronts(
    alloc: Global,
    nodes: &Lexicon,
    ports: &[Port],
) -> Result<Items<Items<u8>>, AllocError>
    ensures { IfOk result (AreOf (put_front nodes.now) ports.now) }
{
    let mut texts = Items::new(alloc);
    for port in 0..ports.len() {
        let mut text = Vec::new(alloc);
        push_put_front(&mut text, nodes, ports, port)?;
        texts.push(Items::from_vec(text))?;
    }
    Ok(texts)
}

fn get_lines(alloc: Global, nodes: &Lexicon, ports: &[Port]) -> Result<Items<Items<u8>>, AllocError>
    ensures { IfOk result (AreOf (get_line nodes.now) ports.now) }
{
    let mut texts = Items::new(alloc);
    for port in 0..ports.len() {
        let mut text = Vec::new(alloc);
        push_get_line(&mut text, nodes, ports, port)?;
        texts.push(Items::from_vec(text))?;
    }
    Ok(texts)
}

/// The fronts of all ports' lines.
pub(crate) fn fronts_of(
    alloc: Global,
    nodes: &Lexicon,
    ports: &[Port],
) -> Result<Fronts, AllocError>
    ensures { IfOk result (AreFronts nodes.now ports.now) }
{
    Ok(Fronts {
        puts: put_fronts(alloc, nodes, ports)?,
        gets: get_lines(alloc, nodes, ports)?,
    })
}

/// Appends the line of a put at a port up to its value.
pub(crate) fn push_put(
    buffer: &mut Vec<u8>,
    fronts: &Fronts,
    nodes: &Lexicon,
    ports: &[Port],
    port: usize,
) -> Result<(), AllocError>
    requires { AreFronts nodes.now ports.now fronts.now }
    ensures { Adds buffer.old buffer.new result (put_front nodes.now (slice_get ports.now port)) }
{
    match at(fronts.puts.as_slice(), port) {
        Some(text) => push_bytes(buffer, text.as_slice()),
        None => push_put_front(buffer, nodes, ports, port),
    }
}

/// Appends the line of a get at a port.
pub(crate) fn push_get(
    buffer: &mut Vec<u8>,
    fronts: &Fronts,
    nodes: &Lexicon,
    ports: &[Port],
    port: usize,
) -> Result<(), AllocError>
    requires { AreFronts nodes.now ports.now fronts.now }
    ensures { Adds buffer.old buffer.new result (get_line nodes.now (slice_get ports.now port)) }
{
    match at(fronts.gets.as_slice(), port) {
        Some(text) => push_bytes(buffer, text.as_slice()),
        None => push_get_line(buffer, nodes, ports, port),
    }
}
