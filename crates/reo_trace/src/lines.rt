//! The lines of a report's text, each made in a buffer.
ghost use Rattle.std.specs.Prelude.{◌≡◌, ◌+◌, ◌≤◌, [], ◌∷◌, length, take, drop, decimal, codes, ◌++◌, IfOk, OnOk, vec_len, flat_map, slice_get, Some};
ghost use Rattle.std.specs.Fmt.{signed_decimal};
ghost use Rattle.std.specs.List.{list_all};
ghost use Rattle.reo_value.specs.Lexicon.{text_at};
ghost use Rattle.reo_trace.specs.Buffer.{HasTaken, HasWritten, Takes};
ghost use Rattle.reo_trace.specs.Escapes as escapes;
ghost use Rattle.reo_trace.specs.Fronts.{AreFronts, AreQuotes, quoted_text};
ghost use Rattle.reo_trace.specs.ReportText.{escaped, value_text, node_text, port_text, end_text, name_text, pair_text, step_line, end_line};

use crate::Ending;
use crate::fronts::push_front_of;
use crate::numbers::StepFront;
use crate::parts::Parts;
use crate::quotes::push_quote_of;
use crate::room::{make_room, put_byte};
use crate::runs::write_run;
use crate::shown::{Shown, push_shown};
use itoa::Buffer;
use reo_net::{Net, Port};
use reo_value::{Lexicon, Value, Way};
use std::alloc::AllocError;

/// The text of this number, or no bytes where there is none.
pub fn bytes_at(texts: &Lexicon, number: usize) -> &[u8]
    ensures { result.now ≡ text_at texts.now number }
{
    if number >= texts.len() as usize {
        return &[];
    }
    texts.text_or_empty(number as u32).as_bytes()
}

/// Appends bytes to a buffer.
pub fn push_bytes(buffer: &mut Vec<u8>, bytes: &[u8]) -> Result<(), AllocError>
    ensures { Takes buffer.old buffer.new result bytes.now }
{
    append(buffer, bytes)
}

/// Appends bytes to a buffer, where lines are made: a call would cost as much as the copy.
#[inline(always)]
pub(crate) fn append(buffer: &mut Vec<u8>, bytes: &[u8]) -> Result<(), AllocError>
    ensures { Takes buffer.old buffer.new result bytes.now }
{
    buffer.extend_from_slice(bytes)
}

/// Appends so many bytes from a place on. Bytes that are as long at each call need no call to be copied, so a few more are
/// copied and taken away again.
#[inline(always)]
pub(crate) fn append_short(
    buffer: &mut Vec<u8>,
    bytes: &[u8],
    from: usize,
    count: usize,
) -> Result<(), AllocError>
    requires { (from + 32 ≤ length bytes.now) × (count ≤ 32) }
    ensures taken { OnOk result (HasTaken buffer.old buffer.new (take count (drop from bytes.now))) }
    ensures grows { vec_len buffer.old ≤ vec_len buffer.new }
{
    let len = buffer.len();
    buffer.extend_from_slice(&bytes[from..from + 32])?;
    buffer.truncate(len + count);
    Ok(())
}

/// Appends one byte, with less ado.
#[inline(always)]
pub(crate) fn push_byte(buffer: &mut Vec<u8>, byte: u8) -> Result<(), AllocError>
    ensures { Takes buffer.old buffer.new result (byte ∷ []) }
{
    buffer.push(byte)?;
    Ok(())
}

/// Appends a number in decimal.
pub fn push_decimal(buffer: &mut Vec<u8>, number: u64) -> Result<(), AllocError>
    ensures { Takes buffer.old buffer.new result (decimal number) }
{
    let mut digits = Buffer::new();
    push_bytes(buffer, digits.format(number).as_bytes())
}

/// Appends a number in decimal, with its sign where it is negative.
pub fn push_signed(buffer: &mut Vec<u8>, number: i64) -> Result<(), AllocError>
    ensures { Takes buffer.old buffer.new result (signed_decimal number) }
{
    let mut digits = Buffer::new();
    push_bytes(buffer, digits.format(number).as_bytes())
}

fn push_escaped_byte(buffer: &mut Vec<u8>, byte: u8) -> Result<(), AllocError>
    ensures { Takes buffer.old buffer.new result (escaped byte) }
{
    match byte {
        b'"' => push_bytes(buffer, b"\\\""),
        b'\\' => push_bytes(buffer, b"\\\\"),
        b'\n' => push_bytes(buffer, b"\\n"),
        b'\t' => push_bytes(buffer, b"\\t"),
        _ => push_bytes(buffer, &[byte]),
    }
}

fn push_escaped(buffer: &mut Vec<u8>, bytes: &[u8]) -> Result<(), AllocError>
    ensures { Takes buffer.old buffer.new result (flat_map escaped bytes.now) }
{
    for byte in bytes {
        push_escaped_byte(buffer, *byte)?;
    }
    Ok(())
}

/// Whether a byte stands between quotes as it is.
fn is_plain(byte: u8) -> bool
    ensures { result ≡ escapes.is_plain byte }
{
    match byte {
        b'"' => false,
        b'\\' => false,
        b'\n' => false,
        b'\t' => false,
        _ => true,
    }
}

fn are_plain(bytes: &[u8]) -> bool
    ensures { result ≡ list_all escapes.is_plain bytes.now }
{
    bytes.iter().all(|byte| is_plain(*byte))
}

/// Appends what stands between the quotes of a text, at once where no byte of it is escaped.
fn push_text(buffer: &mut Vec<u8>, bytes: &[u8]) -> Result<(), AllocError>
    ensures { Takes buffer.old buffer.new result (flat_map escaped bytes.now) }
{
    if are_plain(bytes) {
        return push_bytes(buffer, bytes);
    }
    push_escaped(buffer, bytes)
}

/// Appends a value as documents and reports spell it.
pub fn push_value(buffer: &mut Vec<u8>, texts: &Lexicon, value: Value) -> Result<(), AllocError>
    ensures { Takes buffer.old buffer.new result (value_text texts.now value) }
{
    match value {
        Value::Int(number) => push_signed(buffer, number.get()),
        Value::Sym(text) => push_quoted(buffer, texts, text),
    }
}

/// Appends a text between quotes.
pub(crate) fn push_quoted(
    buffer: &mut Vec<u8>,
    texts: &Lexicon,
    text: u32,
) -> Result<(), AllocError>
    ensures { Takes buffer.old buffer.new result (quoted_text texts.now text) }
{
    push_bytes(buffer, b"\"")?;
    push_text(buffer, bytes_at(texts, text as usize))?;
    push_bytes(buffer, b"\"")
}

pub(crate) fn push_node(
    buffer: &mut Vec<u8>,
    nodes: &Lexicon,
    ports: &[Port],
    number: u32,
) -> Result<(), AllocError>
    ensures { Takes buffer.old buffer.new result (node_text nodes.now (slice_get ports.now number)) }
{
    match ports.get(number as usize) {
        Some(port) => push_bytes(buffer, bytes_at(nodes, port.node as usize)),
        None => Ok(()),
    }
}

fn push_port(buffer: &mut Vec<u8>, nodes: &Lexicon, port: Port) -> Result<(), AllocError>
    ensures { Takes buffer.old buffer.new result (port_text nodes.now (Some port)) }
{
    push_bytes(buffer, bytes_at(nodes, port.node as usize))?;
    match port.way {
        Way::Put => push_bytes(buffer, b"!"),
        Way::Get => push_bytes(buffer, b"?"),
    }
}

fn push_end(buffer: &mut Vec<u8>, place: u64) -> Result<(), AllocError>
    ensures { Takes buffer.old buffer.new result (end_text place) }
{
    push_decimal(buffer, place / 2 + 1)?;
    if place % 2 == 0 {
        push_bytes(buffer, b".a")
    } else {
        push_bytes(buffer, b".b")
    }
}

/// Appends a name: that of a port by its node, that of an end by its channel.
pub fn push_name(
    buffer: &mut Vec<u8>,
    net: &Net,
    nodes: &Lexicon,
    name: u32,
) -> Result<(), AllocError>
    ensures { Takes buffer.old buffer.new result (name_text net.now nodes.now name) }
{
    let ports = net.ports();
    let name = name as usize;
    if name < ports.len() {
        push_port(buffer, nodes, ports[name])
    } else {
        push_end(buffer, (name - ports.len()) as u64)
    }
}

/// Appends a value in a line: mostly that of the line before.
#[inline(always)]
pub(crate) fn push_datum(
    buffer: &mut Vec<u8>,
    texts: &Lexicon,
    quotes: &Parts,
    shown: &mut Shown,
    value: Value,
) -> Result<(), AllocError>
    requires { AreQuotes texts.now quotes.now }
    ensures taken { OnOk result (HasTaken buffer.old buffer.new (value_text texts.now value)) }
    ensures grows { vec_len buffer.old ≤ vec_len buffer.new }
{
    match value {
        Value::Int(number) => push_shown(buffer, shown, number.get()),
        Value::Sym(text) => push_quote_of(buffer, texts, quotes, text),
    }
}

#[inline(always)]
fn push_pair(
    buffer: &mut Vec<u8>,
    net: &Net,
    nodes: &Lexicon,
    texts: &Lexicon,
    fronts: &Parts,
    quotes: &Parts,
    shown: &mut Shown,
    pair: (u32, Value),
) -> Result<(), AllocError>
    requires fronts { AreFronts net.now nodes.now fronts.now }
    requires quotes { AreQuotes texts.now quotes.now }
    ensures taken { OnOk result (HasTaken buffer.old buffer.new (pair_text net.now nodes.now texts.now pair)) }
    ensures grows { vec_len buffer.old ≤ vec_len buffer.new }
{
    push_front_of(buffer, net, nodes, fronts, pair.0)?;
    push_datum(buffer, texts, quotes, shown, pair.1)
}

fn push_pairs(
    buffer: &mut Vec<u8>,
    net: &Net,
    nodes: &Lexicon,
    texts: &Lexicon,
    fronts: &Parts,
    quotes: &Parts,
    shown: &mut Shown,
    pairs: &[(u32, Value)],
) -> Result<(), AllocError>
    requires fronts { AreFronts net.now nodes.now fronts.now }
    requires quotes { AreQuotes texts.now quotes.now }
    ensures taken { OnOk result (HasTaken buffer.old buffer.new (flat_map (pair_text net.now nodes.now texts.now) pairs.now)) }
    ensures grows { vec_len buffer.old ≤ vec_len buffer.new }
{
    for pair in pairs {
        push_pair(buffer, net, nodes, texts, fronts, quotes, shown, *pair)?;
    }
    Ok(())
}

/// How many pairs are written into one room.
const MOST: usize = 128;

/// Appends pairs and the end of their line behind the bytes that are used. Answers how many are used then.
fn push_rest(
    buffer: &mut Vec<u8>,
    used: usize,
    net: &Net,
    nodes: &Lexicon,
    texts: &Lexicon,
    fronts: &Parts,
    quotes: &Parts,
    shown: &mut Shown,
    pairs: &[(u32, Value)],
) -> Result<usize, AllocError>
    requires fronts { AreFronts net.now nodes.now fronts.now }
    requires quotes { AreQuotes texts.now quotes.now }
    requires used { used ≤ vec_len buffer.old }
    ensures written { IfOk result (λ end. HasWritten buffer.old.items used buffer.new.items end (flat_map (pair_text net.now nodes.now texts.now) pairs.now ++ codes "\n")) }
    ensures grows { used ≤ vec_len buffer.new }
{
    buffer.truncate(used);
    push_pairs(buffer, net, nodes, texts, fronts, quotes, shown, pairs)?;
    push_byte(buffer, b'\n')?;
    Ok(buffer.len())
}

/// Appends a step's line behind the bytes that are used: its first pairs in one room. Answers how many are used then.
pub(crate) fn push_step(
    buffer: &mut Vec<u8>,
    used: usize,
    net: &Net,
    nodes: &Lexicon,
    texts: &Lexicon,
    fronts: &Parts,
    quotes: &Parts,
    shown: &mut Shown,
    front: &StepFront,
    pairs: &[(u32, Value)],
) -> Result<usize, AllocError>
    requires fronts { AreFronts net.now nodes.now fronts.now }
    requires quotes { AreQuotes texts.now quotes.now }
    requires used { used ≤ vec_len buffer.old }
    ensures written { IfOk result (λ end. HasWritten buffer.old.items used buffer.new.items end (step_line net.now nodes.now texts.now front.now (record { pairs = pairs.now }))) }
    ensures grows { used ≤ vec_len buffer.new }
{
    let most = if pairs.len() < MOST {
        pairs.len()
    } else {
        MOST
    };
    make_room(buffer, used, 64 * most + 64)?;
    let room = buffer.as_mut_slice();
    let begun = front.put(room, used);
    let run = write_run(
        room,
        begun,
        net,
        nodes,
        texts,
        fronts,
        quotes,
        shown,
        &pairs[..most],
    );
    if run.pairs == pairs.len() {
        return Ok(put_byte(room, run.used, b'\n'));
    }
    push_rest(
        buffer,
        run.used,
        net,
        nodes,
        texts,
        fronts,
        quotes,
        shown,
        &pairs[run.pairs..],
    )
}

pub(crate) fn push_ending(buffer: &mut Vec<u8>, ending: Ending) -> Result<(), AllocError>
    ensures { Takes buffer.old buffer.new result (end_line ending) }
{
    match ending {
        Ending::Done => push_bytes(buffer, b"end done\n"),
        Ending::Stuck => push_bytes(buffer, b"end stuck\n"),
        Ending::Limit => push_bytes(buffer, b"end limit\n"),
    }
}
