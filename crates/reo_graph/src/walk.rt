//! Ranks of the vertices, from a walk along the edges.
ghost use Rattle.std.specs.Prelude.{◌≡◌};
ghost use Rattle.std.specs.Bool.{OnTrue};
ghost use Rattle.reo_graph.specs.Edges.{rank_in, Rise};

use std::alloc::{AllocError, Global};
use std::collections::BTreeMap;

/// A rank for each vertex, in the order of a walk that comes to a vertex once it went along all edges to it. What a loop
/// leads to gets none. Whether the ranks rise is asked of `rises`.
pub(crate) fn ranks_of(
    alloc: Global,
    edges: &[(u32, u32)],
) -> Result<BTreeMap<u32, u32>, AllocError> {
    let mut sorted = Vec::from_slice(alloc, edges)?;
    sorted.sort()?;
    let mut waiting = edges_to(alloc, edges)?;
    let mut ready = free_vertices(alloc, &waiting)?;
    let mut ranks = BTreeMap::new(alloc);
    for rank in 0..u32::MAX {
        let Some(vertex) = ready.pop() else {
            break;
        };
        ranks.insert(vertex, rank)?;
        let first = sorted.partition_point(|edge| edge.0 < vertex);
        for edge in &sorted[first..] {
            if edge.0 != vertex {
                break;
            }
            if is_last(&mut waiting, edge.1) {
                ready.push(edge.1)?;
            }
        }
    }
    Ok(ranks)
}

/// For each vertex how many edges lead to it.
fn edges_to(alloc: Global, edges: &[(u32, u32)]) -> Result<BTreeMap<u32, u32>, AllocError> {
    let mut counts: BTreeMap<u32, u32> = BTreeMap::new(alloc);
    for (begin, end) in edges {
        counts.entry(*begin)?.or_insert(0);
        let count = counts.entry(*end)?.or_insert(0);
        *count = count.saturating_add(1);
    }
    Ok(counts)
}

/// The vertices to which no edge leads.
fn free_vertices(alloc: Global, counts: &BTreeMap<u32, u32>) -> Result<Vec<u32>, AllocError> {
    let mut free = Vec::new(alloc);
    for (vertex, count) in counts {
        if *count == 0 {
            free.push(*vertex)?;
        }
    }
    Ok(free)
}

/// Counts one edge less to the vertex. Gives whether it was the last.
fn is_last(counts: &mut BTreeMap<u32, u32>, vertex: u32) -> bool {
    match counts.get_mut(&vertex) {
        Some(count) => {
            *count = count.saturating_sub(1);
            *count == 0
        }
        None => false,
    }
}

/// Whether each edge leads to a greater vertex: then the vertices are ranks themselves, as where they are numbered along
/// the edges.
pub(crate) fn are_ranks(edges: &[(u32, u32)]) -> bool
    ensures { OnTrue result (Rise (λ vertex. vertex) edges.now) }
{
    edges.iter().all(|edge| edge.0 < edge.1)
}

/// Whether each edge leads to a greater rank.
pub(crate) fn rises(ranks: &BTreeMap<u32, u32>, edges: &[(u32, u32)]) -> bool
    ensures { OnTrue result (Rise (rank_in ranks.now.entries) edges.now) }
{
    edges
        .iter()
        .all(|edge| rank_of(ranks, edge.0) < rank_of(ranks, edge.1))
}

fn rank_of(ranks: &BTreeMap<u32, u32>, vertex: u32) -> u32
    ensures { result ≡ rank_in ranks.now.entries vertex }
{
    ranks.get(&vertex).copied().unwrap_or(0)
}
