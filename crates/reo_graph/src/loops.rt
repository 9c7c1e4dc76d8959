//! The least vertex that is on a loop.
ghost use Rattle.std.specs.Prelude.{◌≡◌, ◌⊎◌, Some, length, map, nat_eq, IfOk};
ghost use Rattle.reo_graph.specs.Paths.{IsOnLoop, IsLeast};
ghost use Rattle.reo_graph.specs.Closure.{rows, bit};
ghost use Rattle.reo_graph.specs.Edges.{following, IsLooped};

use crate::closure::{closed, is_marked, row_at};
use crate::walk::{are_ranks, ranks_of, rises};
use std::alloc::{AllocError, Global};

/// The least vertex from which a path of these edges leads back to it, where there is one. Vertices may have any numbers.
/// Where there is none, it takes little more than sorting the edges; else a table of the edges is closed.
pub fn least_on_loop(alloc: Global, edges: &[(u32, u32)]) -> Result<Option<u32>, AllocError>
    ensures { IfOk result (IsLeast (IsOnLoop edges.now)) }
{
    if are_ranks(edges) {
        return Ok(None);
    }
    if rises(&ranks_of(alloc, edges)?, edges) {
        return Ok(None);
    }
    let table = closed(alloc, following_edges(alloc, edges)?)?;
    Ok(least_looped(edges, table.as_slice()))
}

/// A table of the edges, with a mark where the one ends where the other begins.
fn following_edges(alloc: Global, edges: &[(u32, u32)]) -> Result<Vec<Vec<bool>>, AllocError>
    ensures { IfOk result (λ table. rows table.items ≡ following edges.now) }
{
    let mut rows = Vec::with_capacity(alloc, edges.len())?;
    for edge in edges {
        rows.push(next_edges(alloc, edges, edge.1)?)?;
    }
    Ok(rows)
}

/// A mark for each edge that begins at the vertex.
fn next_edges(alloc: Global, edges: &[(u32, u32)], vertex: u32) -> Result<Vec<bool>, AllocError>
    ensures { IfOk result (λ row. row.items ≡ map (λ next. nat_eq vertex next.0) edges.now) }
{
    let mut marks = Vec::with_capacity(alloc, edges.len())?;
    for next in edges {
        marks.push(vertex == next.0)?;
    }
    Ok(marks)
}

/// The least begin of an edge that the table marks in its own row.
fn least_looped(edges: &[(u32, u32)], table: &[Vec<bool>]) -> Option<u32>
    ensures { IsLeast (IsLooped edges.now (rows table.now) (length edges.now)) result }
{
    let mut least = None;
    for (number, edge) in edges.iter().enumerate() {
        if is_looped(table, number) {
            least = Some(lesser(least, edge.0));
        }
    }
    least
}

fn is_looped(table: &[Vec<bool>], number: usize) -> bool
    ensures { result ≡ bit (rows table.now) number number }
{
    is_marked(row_at(table, number), number)
}

/// The least of a number and one that may be there.
fn lesser(least: Option<u32>, vertex: u32) -> u32
    ensures { IsLeast (λ n. (n ≡ vertex) ⊎ (least ≡ Some n)) (Some result) }
{
    match least {
        Some(other) if other < vertex => other,
        _ => vertex,
    }
}
