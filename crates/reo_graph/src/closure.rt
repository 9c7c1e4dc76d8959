//! The closure of a table of edges, which tells where paths lead.
ghost use Rattle.std.specs.Prelude.{◌≡◌, ℕ, ◌||◌, ◌&&◌, [], false, map, slice_index_or, length, IfOk, OnOk};
ghost use Rattle.reo_graph.specs.Closure.{goes, mark, rows, bit};

use std::alloc::{AllocError, Global};

/// The table with a mark where a path leads from row i to place j, one edge or more, where `table` has one for each
/// edge. No mark stands outside a table. It takes as many rounds as there are rows, each of at most a step for each place.
pub fn closed(alloc: Global, mut table: Vec<Vec<bool>>) -> Result<Vec<Vec<bool>>, AllocError>
    ensures { IfOk result (λ closure. (i j : ℕ) → bit (rows closure.items) i j ≡ goes (bit (rows table.items)) (length table.items) i j) }
{
    for via in 0..table.len() {
        let middle = Vec::from_slice(alloc, row_at(&table, via))?;
        go_through(&mut table, via, &middle)?;
    }
    Ok(table)
}

/// Lets paths go through one vertex more, to where the middle row leads.
fn go_through(table: &mut Vec<Vec<bool>>, via: usize, middle: &[bool]) -> Result<(), AllocError>
    ensures { OnOk result ((i j : ℕ) → bit (rows table.new.items) i j ≡ (bit (rows table.old.items) i j || (bit (rows table.old.items) i via && mark middle.now j))) }
{
    for row in table.iter_mut() {
        if is_marked(row, via) {
            add_marks(row, middle)?;
        }
    }
    Ok(())
}

/// Adds the marks of another row.
fn add_marks(row: &mut Vec<bool>, more: &[bool]) -> Result<(), AllocError>
    ensures { OnOk result ((j : ℕ) → mark row.new.items j ≡ (mark row.old.items j || mark more.now j)) }
{
    if row.len() < more.len() {
        row.resize(more.len(), false)?;
    }
    for (place, mark) in more.iter().enumerate() {
        if *mark {
            row[place] = true;
        }
    }
    Ok(())
}

/// Row `number` of a table, or an empty one.
pub(crate) fn row_at(table: &[Vec<bool>], number: usize) -> &[bool]
    ensures { result.now ≡ slice_index_or (rows table.now) number [] }
{
    match table.get(number) {
        Some(row) => row.as_slice(),
        None => &[],
    }
}

/// Whether a row has a mark at a place.
pub(crate) fn is_marked(row: &[bool], place: usize) -> bool
    ensures { result ≡ mark row.now place }
{
    match row.get(place) {
        Some(mark) => *mark,
        None => false,
    }
}
