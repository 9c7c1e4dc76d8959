//! One place for each port of a fabric.
ghost use Rattle.std.specs.Prelude.{◌≡◌, ◌<◌, length, map, replicate, slice_set, slice_index_or, Option, Some, None, IfOk};
ghost use Rattle.reo_port.specs.Party.{way_of_owner, ways_of};

use reo_fabric::{Fabric, PortSpec};
use reo_value::{Op, Way};
use std::alloc::{AllocError, Global};

/// The way at a port, where the port is the party's.
fn way_of(spec: &PortSpec, party: u32) -> Option<Way>
    ensures { result ≡ way_of_owner party spec.now.owner spec.now.way }
{
    match spec.owner {
        Some(owner) => { if party == owner { Some(spec.way) } else { None } }
        None => None,
    }
}

/// The way at each port of the party.
pub(crate) fn all_ways(
    alloc: Global,
    fabric: &Fabric,
    party: u32,
) -> Result<Vec<Option<Way>>, AllocError>
    ensures { IfOk result (λ ways. ways.items ≡ ways_of fabric.now party) }
{
    let mut ways = Vec::new(alloc);
    for spec in fabric.ports.as_slice() {
        ways.push(way_of(spec, party))?;
    }
    Ok(ways)
}

/// No call stands at any port.
pub(crate) fn no_calls(alloc: Global, count: usize) -> Result<Vec<Option<Op>>, AllocError>
    ensures { IfOk result (λ calls. calls.items ≡ replicate count None) }
{
    let mut calls = Vec::new(alloc);
    calls.resize(count, None)?;
    Ok(calls)
}

pub(crate) fn way_in(ways: &[Option<Way>], port: u32) -> Option<Way>
    ensures { result ≡ slice_index_or ways.now port None }
{
    if (port as usize) < ways.len() {
        ways[port as usize]
    } else {
        None
    }
}

pub(crate) fn call_in(calls: &[Option<Op>], port: u32) -> Option<Op>
    ensures { result ≡ slice_index_or calls.now port None }
{
    if (port as usize) < calls.len() {
        calls[port as usize]
    } else {
        None
    }
}

/// Notes which call stands at a port.
pub(crate) fn note(calls: &mut Vec<Option<Op>>, port: u32, call: Option<Op>)
    requires { port < length calls.old.items }
    ensures { calls.new.items ≡ slice_set calls.old.items port call }
{
    calls[port as usize] = call;
}
