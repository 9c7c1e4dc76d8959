//! The shared words.
ghost use Rattle.std.specs.Prelude.{◌≡◌, ◌<◌, ◌≤◌, ◌+◌, ◌*◌, ◌^◌, length, map, slice_get, None, Some, IfSome, IfOk, replicate, ◌++◌};
ghost use Rattle.reo_fabric.specs.Fabric.{IsLawfulFabric, first_state};
ghost use Rattle.reo_fabric.specs.Laws.{AreValues};
ghost use Rattle.reo_fabric.specs.Reading.{cell_word};
ghost use Rattle.reo_value.specs.Code.{IsValue};
ghost use Rattle.reo_coupling.specs.Moment.{round_place, cell_place, state_place, data_place};
ghost use Rattle.reo_coupling.specs.Opening.{first_words, first_root};
ghost use Rattle.reo_table.specs.Words.{Opened};

use crate::root::Root;
use crate::rule::{Coupled, Key};
use atomic_table::Table;
use reo_coupling::View;
use reo_fabric::{CellSpec, Fabric};
use reo_value::{Value, word_of};
use std::alloc::{AllocError, Global};
use std::marker::Model;
use std::snapshot::Snapshot;

/// The commit word, a round word for each region, a word for each cell, and a state word and a data word for each port, which
/// threads share by `&`.
#[derive(Drop)]
pub struct Words {
    pub(crate) table: Table<(), View, Key, Coupled, Global>,
    pub(crate) regions: u32,
    pub(crate) cells: u32,
    /// Where closing puts what is in the cells.
    pub(crate) room: Vec<Option<Value>>,
}

impl Model for Words {
    ghost use Rattle.std.specs.Prelude.{length};
    ghost use Rattle.reo_table.specs.Shared.{WordsState};
    ghost use Rattle.reo_table.specs.Words.{words_state, IsWords};

    ghost Value = { WordsState };

    ghost view = { λ w. words_state w.table.shared.table_id w.table.shared.key };

    ghost invariant = { λ w. IsWords w.table.shared.table_id w.table.shared.key w.regions w.cells (length w.room.items) };
}

impl Words {
    /// The words of a fabric at the start, and the root that gives away its seats. Only this takes memory.
    pub fn new(alloc: Global, fabric: &Fabric, limit: u64) -> Result<(Words, Root), AllocError>
        requires lawful { IsLawfulFabric fabric.now }
        requires some { 1 ≤ limit }
        requires small { limit ≤ 100000 }
        ensures { IfOk result (λ made. Opened fabric.now limit made.0 made.1) }
    {
        let words = words_of(alloc, fabric)?;
        let room = first_cells(alloc, fabric)?;
        let key = Key {
            fabric: Snapshot::of(fabric),
            limit,
        };
        let (table, seat) = Table::of_words(alloc, words.as_slice(), &key)?;
        let words = Words {
            table,
            regions: fabric.regions,
            cells: fabric.cells.as_slice().len() as u32,
            room,
        };
        Ok((words, Root { seat, limit }))
    }

    /// Where the word of a cell stands.
    pub(crate) fn cell_index(&self, cell: u32) -> usize
        ensures { result ≡ cell_place self.now.setting.fabric cell }
    {
        1 + self.regions as usize + cell as usize
    }

    /// Where the state word of a port stands.
    pub(crate) fn state_index(&self, port: u32) -> usize
        ensures { result ≡ state_place self.now.setting.fabric port }
    {
        1 + self.regions as usize + self.cells as usize + 2 * port as usize
    }

    /// Where the data word of a port stands.
    pub(crate) fn data_index(&self, port: u32) -> usize
        ensures { result ≡ data_place self.now.setting.fabric port }
    {
        2 + self.regions as usize + self.cells as usize + 2 * port as usize
    }
}

/// The code of what is in a cell at first, which is a value.
fn first_word(held: &Option<Value>) -> u64
    ensures word { result ≡ cell_word held.now }
    ensures value { IfSome held.now IsValue }
{
    match held {
        Some(value) => word_of(*value),
        None => 0,
    }
}

/// The words at the start.
fn words_of(alloc: Global, fabric: &Fabric) -> Result<Vec<u64>, AllocError>
    requires regions { fabric.now.regions < 2 ^ 31 }
    requires cells { length fabric.now.cells < 2 ^ 31 }
    requires ports { length fabric.now.ports < 2 ^ 31 }
    ensures words { IfOk result (λ words. words.items ≡ first_words fabric.now) }
    ensures values { IfOk result (λ words. AreValues (first_state fabric.now)) }
{
    let mut words = Vec::new(alloc);
    words.resize(1 + fabric.regions as usize, 0)?;
    for cell in fabric.cells.as_slice() {
        words.push(first_word(&cell.first))?;
    }
    let length = words.len() + 2 * fabric.ports.as_slice().len();
    words.resize(length, 0)?;
    Ok(words)
}

/// What is in the cells at the start.
fn first_cells(alloc: Global, fabric: &Fabric) -> Result<Vec<Option<Value>>, AllocError>
    ensures { IfOk result (λ cells. length cells.items ≡ length fabric.now.cells) }
{
    let mut cells = Vec::new(alloc);
    cells.resize(fabric.cells.as_slice().len(), None)?;
    Ok(cells)
}
