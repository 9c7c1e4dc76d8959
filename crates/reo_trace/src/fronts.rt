//! What stands before each value in a step's line, made once for each name.
ghost use Rattle.std.specs.Prelude.{◌≤◌, IfOk, OnOk, vec_len};
ghost use Rattle.reo_trace.specs.Buffer.{HasTaken, Takes};
ghost use Rattle.reo_trace.specs.Fronts.{AreFronts, front_text};

use crate::lines::{push_bytes, push_name};
use crate::parts::{Parts, push_part};
use reo_net::Net;
use reo_value::Lexicon;
use std::alloc::{AllocError, Global};

fn push_front(buffer: &mut Vec<u8>, net: &Net, nodes: &Lexicon, name: u32) -> Result<(), AllocError>
    ensures { Takes buffer.old buffer.new result (front_text net.now nodes.now name) }
{
    push_bytes(buffer, b" ")?;
    push_name(buffer, net, nodes, name)?;
    push_bytes(buffer, b"=")
}

/// The fronts of all names of the circuit.
pub(crate) fn fronts_of(alloc: Global, net: &Net, nodes: &Lexicon) -> Result<Parts, AllocError>
    ensures { IfOk result (AreFronts net.now nodes.now) }
{
    let mut bytes = Vec::new(alloc);
    let mut starts = vec![in alloc; 0usize]?;
    for name in 0..net.names() {
        push_front(&mut bytes, net, nodes, name)?;
        starts.push(bytes.len())?;
    }
    bytes.extend_from_slice(&[0; 32])?;
    Ok(Parts { bytes, starts })
}

/// Appends the front of a name, at once where it is made.
#[inline(always)]
pub(crate) fn push_front_of(
    buffer: &mut Vec<u8>,
    net: &Net,
    nodes: &Lexicon,
    fronts: &Parts,
    name: u32,
) -> Result<(), AllocError>
    requires { AreFronts net.now nodes.now fronts.now }
    ensures taken { OnOk result (HasTaken buffer.old buffer.new (front_text net.now nodes.now name)) }
    ensures grows { vec_len buffer.old ≤ vec_len buffer.new }
{
    if name >= net.names() {
        return push_front(buffer, net, nodes, name);
    }
    push_part(buffer, fronts, name as usize)
}
