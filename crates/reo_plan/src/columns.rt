//! The rows of a large table as bits, one for each of its first 4,096 rows: those that ask a fact, and those that are ruled
//! out since a fact that they ask has failed.
ghost use Rattle.std.specs.Prelude.{◌≡◌, ℕ, ◌<◌, ◌≤◌, ◌/◌, ◌%◌, ◌^◌, Bool, true, false, length, get_or, IfOk};
ghost use Rattle.reo_growth.specs.Lists.{has};
ghost use Rattle.reo_plan.specs.inside.Columns.{column_bit, MissesRows, MissesAsks, AreColumns};

use crate::asks::Asks;
use crate::marks::bit;
use sqlite_items::Items;
use std::alloc::{AllocError, Global};

/// How many words there are for the rows of a table.
const WORDS: usize = 64;

/// How many rows a word has bits for.
const BITS: usize = 64;

/// A bit for each row that is ruled out.
#[derive(Drop)]
pub(crate) struct RuledOut {
    words: [u64; WORDS],
}

/// The bit of a row in its word.
fn row_bit(row: usize) -> u64
    ensures { result ≡ 2 ^ (row % 64) }
{
    bit((row % BITS) as u32)
}

/// Marks that a row asks the fact with this number.
fn add_row(columns: &mut Vec<u64>, number: u32, row: usize)
    requires { length columns.old.items ≡ 4096 }
    ensures kept { (P : ℕ → ℕ → Bool) → MissesAsks P columns.old.items → P number row ≡ false → MissesAsks P columns.new.items }
    ensures len { length columns.new.items ≡ 4096 }
{
    if number < 64 && row < WORDS * BITS {
        columns[WORDS * number as usize + row / BITS] |= row_bit(row);
    }
}

/// Marks that a row asks the facts with these numbers.
fn add_numbers(columns: &mut Vec<u64>, numbers: &[u32], row: usize)
    requires { length columns.old.items ≡ 4096 }
    ensures kept { (P : ℕ → ℕ → Bool) → MissesAsks P columns.old.items → ((number : ℕ) → has numbers.now number ≡ true → P number row ≡ false) → MissesAsks P columns.new.items }
    ensures len { length columns.new.items ≡ 4096 }
{
    for number in numbers {
        add_row(columns, *number, row);
    }
}

/// For each of 64 facts the rows that ask it: 64 words a fact.
pub(crate) fn columns_of(alloc: Global, asks: &[Asks]) -> Result<Items<u64>, AllocError>
    ensures { IfOk result (AreColumns asks.now) }
{
    if asks.len() <= BITS {
        return Ok(Items::new(alloc));
    }
    let mut columns = vec![in alloc; 0; 64 * WORDS]?;
    for row in 0..asks.len() {
        add_numbers(&mut columns, asks[row].numbers.as_slice(), row);
    }
    Ok(Items::from_vec(columns))
}

/// No row is ruled out.
pub(crate) fn none_out() -> RuledOut
    ensures { (p : ℕ → Bool) → MissesRows p result.words }
{
    RuledOut { words: [0; WORDS] }
}

/// Rules out the rows that ask the fact with this number.
pub(crate) fn rule_out(out: &mut RuledOut, columns: &[u64], number: u32)
    ensures { (p : ℕ → Bool) → ((row : ℕ) → row < 4096 → p row ≡ true → column_bit columns.now number row ≡ 0) → MissesRows p out.old.words → MissesRows p out.new.words }
{
    let from = WORDS * number as usize;
    if columns.len() < WORDS || from > columns.len() - WORDS {
        return;
    }
    let column = &columns[from..from + WORDS];
    for word in 0..WORDS {
        out.words[word] |= column[word];
    }
}

/// The word with the bit of a row.
#[inline(always)]
fn word_of(out: &RuledOut, row: usize) -> u64
    requires { row < 4096 }
    ensures { result ≡ get_or out.now.words (row / 64) 0 }
{
    out.words[row / BITS]
}

/// The first row from this one on that is not ruled out.
pub(crate) fn next_row(out: &RuledOut, from: usize) -> usize
    ensures after { from ≤ result }
    ensures passed { (p : ℕ → Bool) → MissesRows p out.now.words → (row : ℕ) → from ≤ row → row < result → p row ≡ false }
{
    let mut row = from;
    while row < WORDS * BITS {
        let kept = !word_of(out, row) >> (row % BITS);
        if kept != 0 {
            return row + kept.trailing_zeros() as usize;
        }
        row = BITS * (row / BITS) + BITS;
    }
    row
}
