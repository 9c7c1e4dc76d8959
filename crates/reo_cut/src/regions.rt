//! The numbers of the regions.
ghost use Rattle.std.specs.Prelude.{◌≡◌, ◌+◌, ◌<◌, ◌^◌, ◌++◌, map, length, All, IfOk, OnOk};
ghost use Rattle.std.specs.List.{range_with_len};
ghost use Rattle.reo_graph.specs.Closure.{count_below};
ghost use Rattle.reo_cut.specs.Labels.{label_at};
ghost use Rattle.reo_cut.specs.Cut.{is_buffer};
ghost use Rattle.reo_cut.specs.Numbers.{is_root, region_at, own_cell, cells_below};

use crate::cut::CellCut;
use reo_net::{Channel, Net};
use sqlite_items::{Items, at};
use std::alloc::{AllocError, Global};

fn is_buffer(net: &Net, automaton: u32) -> bool
    ensures { result ≡ is_buffer net.now automaton }
{
    match at(net.channels(), automaton as usize) {
        Some(channel) => channel.kind.is_fifo(),
        None => false,
    }
}

/// Whether the automaton is the least of its region.
fn is_root(net: &Net, labels: &[u32], automaton: u32) -> bool
    requires { automaton < length labels.now }
    ensures { result ≡ is_root net.now labels.now automaton }
{
    !is_buffer(net, automaton) && labels[automaton as usize] == automaton
}

/// One more, where the automaton is the least of its region.
fn next_count(net: &Net, labels: &[u32], automaton: u32, count: u32) -> u32
    requires within { automaton < length labels.now }
    requires fit { count + 1 < 2 ^ 32 }
    requires so_far { count ≡ count_below (is_root net.now labels.now) automaton }
    ensures { result ≡ count_below (is_root net.now labels.now) (automaton + 1) }
{
    if is_root(net, labels, automaton) {
        count + 1
    } else {
        count
    }
}

/// For each automaton and for their end, how many regions begin before it.
pub fn counts(alloc: Global, net: &Net, labels: &[u32]) -> Result<Vec<u32>, AllocError>
    requires { length labels.now + 1 < 2 ^ 32 }
    ensures { IfOk result (λ counts. counts.items ≡ map (count_below (is_root net.now labels.now)) (range_with_len 0 (length labels.now + 1))) }
{
    let mut counts = Vec::new(alloc);
    let mut count = 0;
    for automaton in 0..labels.len() as u32 {
        counts.push(count)?;
        count = next_count(net, labels, automaton, count);
    }
    counts.push(count)?;
    Ok(counts)
}

/// For each label how many regions begin before it.
pub fn numbers(alloc: Global, labels: &[u32], counts: &[u32]) -> Result<Vec<u32>, AllocError>
    requires { All (λ label. label < length counts.now) labels.now }
    ensures { IfOk result (λ numbers. numbers.items ≡ map (label_at counts.now) labels.now) }
{
    let mut numbers = Vec::with_capacity(alloc, labels.len())?;
    for label in labels {
        numbers.push(counts[*label as usize])?;
    }
    Ok(numbers)
}

/// The region of an automaton; a buffer has none.
fn region(net: &Net, numbers: &[u32], automaton: u32) -> Option<u32>
    requires { automaton < length numbers.now }
    ensures { result ≡ region_at net.now numbers.now automaton }
{
    if is_buffer(net, automaton) {
        None
    } else {
        Some(numbers[automaton as usize])
    }
}

/// The region of each automaton.
pub fn region_of(
    alloc: Global,
    net: &Net,
    numbers: &[u32],
) -> Result<Items<Option<u32>>, AllocError>
    requires { length numbers.now < 2 ^ 32 }
    ensures { IfOk result (λ regions. regions ≡ map (region_at net.now numbers.now) (range_with_len 0 (length numbers.now))) }
{
    let mut regions = Vec::with_capacity(alloc, numbers.len())?;
    for automaton in 0..numbers.len() as u32 {
        let region = region(net, numbers, automaton);
        regions.push(region)?;
    }
    Ok(Items::from_vec(regions))
}

/// Adds the cell of a channel that is a FIFO1, in a circuit of so many channels.
fn add_cell(
    cells: &mut Items<CellCut>,
    net: &Net,
    numbers: &[u32],
    number: u32,
    channel: &Channel,
) -> Result<(), AllocError>
    requires end_a { length net.now.channels + channel.now.a < length numbers.now }
    requires end_b { length net.now.channels + channel.now.b < length numbers.now }
    ensures { OnOk result (cells.new ≡ cells.old ++ own_cell net.now numbers.now number channel.now) }
{
    let count = net.channels().len();
    if channel.kind.is_fifo() {
        cells.push(CellCut {
            channel: number,
            filler: numbers[count + channel.a as usize],
            taker: numbers[count + channel.b as usize],
        })?;
    }
    Ok(())
}

/// The buffers, each with the regions of the nodes at its ends.
pub fn cells(alloc: Global, net: &Net, numbers: &[u32]) -> Result<Items<CellCut>, AllocError>
    requires { length numbers.now ≡ length net.now.channels + net.now.nodes }
    ensures { IfOk result (λ cells. cells ≡ cells_below net.now numbers.now (length net.now.channels)) }
{
    let channels = net.channels();
    let mut cells = Items::new(alloc);
    for (number, channel) in channels.iter().enumerate() {
        add_cell(&mut cells, net, numbers, number as u32, channel)?;
    }
    Ok(cells)
}

/// The region of each port.
pub fn port_region(alloc: Global, net: &Net, numbers: &[u32]) -> Result<Items<u32>, AllocError>
    requires { length numbers.now ≡ length net.now.channels + net.now.nodes }
    ensures { IfOk result (λ regions. regions ≡ map (λ port. label_at numbers.now (length net.now.channels + port.node)) net.now.ports) }
{
    let count = net.channels().len();
    let ports = net.ports();
    let mut regions = Vec::with_capacity(alloc, ports.len())?;
    for port in ports {
        regions.push(numbers[count + port.node as usize])?;
    }
    Ok(Items::from_vec(regions))
}
