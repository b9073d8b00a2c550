//! The table of values.
ghost use Rattle.std.specs.Prelude.{◌≡◌, ◌<◌, ◌++◌, ℕ, All, Contains, IfOk, OnOk, MatchOption, None, Some, length, slice_set};
ghost use Rattle.go_digraph_core.specs.needs.Needs.{NeedsAreInside, AreValues, known_in, needed, rows_of, edges_at, edges_from};
ghost use Rattle.go_digraph_core.specs.needs.mirrors.Filling.{IsMissing, IsStep, IsThere};

use crate::cycle::{Edge, rank_and_order};
use crate::needs::needing::Needing;
use std::alloc::{AllocError, Global};

// Adds an edge from a node to each one that it needs.
fn add_edges(edges: &mut Vec<Edge>, from: usize, row: &[usize]) -> Result<(), AllocError>
    ensures { OnOk result (edges.new.items ≡ edges.old.items ++ edges_at from row.now) }
{
    for to in row {
        edges.push(Edge { from, to: *to })?;
    }
    Ok(())
}

/// An edge for each node and each one that it needs, by their places in the rows: node after node, each in the order of its row. It takes
/// time that is linear in the rows.
///
/// # Errors
///
/// `AllocError` where memory is wanting.
pub fn edges_of(alloc: Global, needs: &[Vec<usize>]) -> Result<Vec<Edge>, AllocError>
    ensures { IfOk result (λ edges. edges.items ≡ edges_from 0 (rows_of needs.now)) }
{
    let mut edges = Vec::new(alloc);
    for (from, row) in needs.iter().enumerate() {
        add_edges(&mut edges, from, row)?;
    }
    Ok(edges)
}

// A table without a value.
fn empty_table<V: Drop>(alloc: Global, count: usize) -> Result<Vec<Option<V>>, AllocError>
    ensures len { IfOk result (λ table. length table.items ≡ count) }
    ensures none { IfOk result (λ table. (a : ℕ) → known_in table.items a ≡ None) }
{
    let mut table = Vec::with_capacity(alloc, count)?;
    for _ in 0..count {
        table.push(None)?;
    }
    Ok(table)
}

// The first of the needed nodes that has no value, or has the rank of the node that needs it.
fn first_missing<V: Drop>(
    ranks: &[usize],
    table: &[Option<V>],
    node: usize,
    row: &[usize],
) -> Option<usize>
    requires ranks { length ranks.now ≡ length table.now }
    requires node { node < length table.now }
    requires row { All (λ b. b < length table.now) row.now }
    ensures { MatchOption result (All (IsThere ranks.now table.now node) row.now) (λ b. Contains row.now b × IsMissing ranks.now table.now node b) }
{
    for needed in row {
        if ranks[*needed] == ranks[node] || table[*needed].is_none() {
            return Some(*needed);
        }
    }
    None
}

// Gives a node a value.
fn put<V: Drop>(table: &mut Vec<Option<V>>, node: usize, value: V)
    requires { node < length table.old.items }
    ensures { table.new.items ≡ slice_set table.old.items node (Some value) }
{
    table[node] = Some(value);
}

// The nodes that a node needs.
fn row_of(needs: &[Vec<usize>], node: usize) -> &[usize]
    requires { node < length needs.now }
    ensures { result.now ≡ needed (rows_of needs.now) node }
{
    &needs[node]
}

// Gives a node its value, where all have one that it needs.
fn fill<S: Needing>(
    alloc: Global,
    stage: &S,
    row: &[usize],
    ranks: &[usize],
    table: &mut Vec<Option<S::Value>>,
    node: usize,
) -> Result<(), AllocError>
    requires ranks { length ranks.now ≡ length table.old.items }
    requires node { node < length table.old.items }
    requires row { All (λ b. b < length table.old.items) row.now }
    ensures { OnOk result (IsStep ranks.now row.now node (S.value stage.now) table.old.items table.new.items) }
{
    if first_missing(ranks, table, node, row).is_some() {
        return Ok(());
    }
    let value = stage.value_of(alloc, table, node)?;
    put(table, node, value);
    Ok(())
}

/// For each node the value that follows from the values of those that it needs, and none where what it needs leads back to itself. It
/// takes time that is linear in the rows, beside what the values take.
///
/// # Errors
///
/// `AllocError` where memory is wanting.
pub fn values_of<S: Needing>(
    alloc: Global,
    stage: &S,
    needs: &[Vec<usize>],
) -> Result<Vec<Option<S::Value>>, AllocError>
    requires inside { NeedsAreInside (rows_of needs.now) }
    requires rows { S.rows stage.now ≡ rows_of needs.now }
    ensures { IfOk result (λ table. AreValues S.Value (rows_of needs.now) (S.value stage.now) table.items) }
{
    let edges = edges_of(alloc, needs)?;
    let ranked = rank_and_order(alloc, &edges, needs.len())?;
    let mut table = empty_table(alloc, needs.len())?;
    for node in ranked.order() {
        fill(
            alloc,
            stage,
            row_of(needs, *node),
            ranked.ranks(),
            &mut table,
            *node,
        )?;
    }
    Ok(table)
}
