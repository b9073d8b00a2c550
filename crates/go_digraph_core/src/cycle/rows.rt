//! The edges of each node.
ghost use Rattle.std.specs.Prelude.{◌≡◌, IfOk, length};
ghost use Rattle.go_digraph_core.specs.cycle.Cycle.{InRange};
ghost use Rattle.go_digraph_core.specs.cycle.mirrors.Search.{AreEmpty, AreRows, row_at};

use crate::cycle::edge::Edge;
use std::alloc::{AllocError, Global};

// Rows with nothing in them.
fn empty_rows(alloc: Global, count: usize) -> Result<Vec<Vec<usize>>, AllocError>
    ensures len { IfOk result (λ rows. length rows.items ≡ count) }
    ensures empty { IfOk result (λ rows. AreEmpty rows.items) }
{
    let mut rows = Vec::with_capacity(alloc, count)?;
    for _ in 0..count {
        rows.push(Vec::new(alloc))?;
    }
    Ok(rows)
}

/// For each node the places of the edges that start there.
pub fn rows_of(alloc: Global, edges: &[Edge], count: usize) -> Result<Vec<Vec<usize>>, AllocError>
    requires { InRange count edges.now }
    ensures len { IfOk result (λ rows. length rows.items ≡ count) }
    ensures rows { IfOk result (λ rows. AreRows edges.now rows.items) }
{
    let mut rows = empty_rows(alloc, count)?;
    for (place, edge) in edges.iter().enumerate() {
        let row = &mut rows[edge.from];
        row.push(place)?;
    }
    Ok(rows)
}

/// The row of a node, and nothing where there is none.
pub fn row_of(rows: &[Vec<usize>], node: usize) -> &[usize]
    ensures { result.now ≡ row_at rows.now node }
{
    match rows.get(node) {
        Some(row) => row.as_slice(),
        None => &[],
    }
}
