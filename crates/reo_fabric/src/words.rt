//! The words that a region reads.
ghost use Rattle.std.specs.Prelude.{◌≡◌, ℕ, ◌<◌, ◌^◌, ◌||◌, length, map, slice_index_or, nat_eq, None, IfOk};
ghost use Rattle.reo_fabric.specs.declared.fabric.Fabric.{Fabric as AnyFabric};
ghost use Rattle.reo_fabric.specs.Entry.{content_at};
ghost use Rattle.reo_fabric.specs.Reading.{offer_at, places_of, reading_of, cell_word, state_word, data_word};
ghost use Rattle.reo_fabric.specs.Engine.{offers_of};
ghost use Rattle.reo_fabric.specs.inside.Whole.{IsUnread};

use crate::fabric::{CellSpec, Fabric, PortSpec};
use crate::port_state::PortState;
use crate::reading::Reading;
use reo_value::{Value, word_of};
use sqlite_items::Items;
use std::alloc::{AllocError, Global};

/// The word of a cell.
fn cell_word_at(cells: &[Option<Value>], cell: u32) -> u64
    ensures { result ≡ cell_word (content_at cells.now cell) }
{
    match cells.get(cell as usize) {
        Some(Some(value)) => word_of(*value),
        _ => 0,
    }
}

/// The state word and the data word of a port.
fn port_words_at(ports: &[PortState], port: u32) -> (u64, u64)
    ensures { let offer = offer_at (offers_of ports.now) port in result ≡ (state_word offer, data_word offer) }
{
    match ports.get(port as usize) {
        Some(PortState::Offered(Some(value))) => (1, word_of(*value)),
        Some(PortState::Offered(None)) => (1, 0),
        _ => (0, 0),
    }
}

fn cell_of_word(words: &[(u32, u64)], at: usize) -> u32
    requires { at < length words.now }
    ensures { (d : ℕ × ℕ) → result ≡ (slice_index_or words.now at d).0 }
{
    words[at].0
}

fn port_of_words(words: &[(u32, u64, u64)], at: usize) -> u32
    requires { at < length words.now }
    ensures { (d : ℕ × ℕ × ℕ) → result ≡ (slice_index_or words.now at d).0 }
{
    words[at].0
}

/// Reads each of these cells anew.
pub(crate) fn read_cells(words: &mut Items<(u32, u64)>, cells: &[Option<Value>])
    ensures { words.new ≡ map (λ p. (p.0, cell_word (content_at cells.now p.0))) words.old }
{
    for at in 0..words.len() {
        let cell = cell_of_word(words.as_slice(), at);
        words.set(at, (cell, cell_word_at(cells, cell)));
    }
}

/// Reads each of these ports anew.
pub(crate) fn read_ports(words: &mut Items<(u32, u64, u64)>, ports: &[PortState])
    ensures { words.new ≡ map (λ p. (p.0, state_word (offer_at (offers_of ports.now) p.0), data_word (offer_at (offers_of ports.now) p.0))) words.old }
{
    for at in 0..words.len() {
        let port = port_of_words(words.as_slice(), at);
        let (state, data) = port_words_at(ports, port);
        words.set(at, (port, state, data));
    }
}

/// The cells of a region, each with the word of an empty one.
fn unread_cells(
    alloc: Global,
    cells: &[CellSpec],
    region: u32,
) -> Result<Items<(u32, u64)>, AllocError>
    requires { length cells.now < 2 ^ 31 }
    ensures { IfOk result (λ words. map (λ p. p.0) words ≡ places_of (λ cell. nat_eq cell.filler region || nat_eq cell.taker region) 0 cells.now) }
{
    let mut words = Vec::new(alloc);
    for (place, cell) in cells.iter().enumerate() {
        if is_of(cell, region) {
            words.push((place as u32, 0))?;
        }
    }
    Ok(Items::from_vec(words))
}

fn is_of(cell: &CellSpec, region: u32) -> bool
    ensures { result ≡ (nat_eq cell.now.filler region || nat_eq cell.now.taker region) }
{
    cell.filler == region || cell.taker == region
}

/// The ports at a region, each with the words of an idle one.
fn unread_ports(
    alloc: Global,
    ports: &[PortSpec],
    region: u32,
) -> Result<Items<(u32, u64, u64)>, AllocError>
    requires { length ports.now < 2 ^ 31 }
    ensures { IfOk result (λ words. map (λ p. p.0) words ≡ places_of (λ port. nat_eq port.region region) 0 ports.now) }
{
    let mut words = Vec::new(alloc);
    for (place, port) in ports.iter().enumerate() {
        if is_at(port, region) {
            words.push((place as u32, 0, 0))?;
        }
    }
    Ok(Items::from_vec(words))
}

fn is_at(port: &PortSpec, region: u32) -> bool
    ensures { result ≡ nat_eq port.now.region region }
{
    port.region == region
}

/// A reading of the region's places, with words that say nothing.
pub(crate) fn unread(alloc: Global, fabric: &Fabric, region: u32) -> Result<Reading, AllocError>
    requires cells { length fabric.now.cells < 2 ^ 31 }
    requires ports { length fabric.now.ports < 2 ^ 31 }
    ensures { IfOk result (IsUnread fabric.now region) }
{
    Ok(Reading {
        region,
        round: 0,
        clock: 0,
        cells: unread_cells(alloc, fabric.cells.as_slice(), region)?,
        ports: unread_ports(alloc, fabric.ports.as_slice(), region)?,
    })
}

/// Reads all words of a region anew.
pub(crate) fn read_region(reading: &mut Reading, cells: &[Option<Value>], ports: &[PortState])
    ensures { (fabric : AnyFabric) (region : ℕ) → IsUnread fabric region reading.old → reading.new ≡ reading_of fabric region cells.now (offers_of ports.now) }
{
    read_cells(&mut reading.cells, cells);
    read_ports(&mut reading.ports, ports);
}
