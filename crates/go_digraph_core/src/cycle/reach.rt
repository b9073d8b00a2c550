//! What nodes reach: ranks by how many each reaches, and marks on those that lead to one.
ghost use Rattle.std.specs.Prelude.{◌≡◌, ◌<◌, ℕ, All, IfOk, OnOk, count_by, length, slice_index_or, false};
ghost use Rattle.go_digraph_core.specs.cycle.Cycle.{InRange, IsRanking, LeadTo};
ghost use Rattle.go_digraph_core.specs.cycle.mirrors.Search.{AreRows, IsReach, IsReachCount, IsVisited, MarksRow};

use crate::cycle::edge::{Edge, reversed_edges};
use crate::cycle::rows::{row_of, rows_of};
use std::alloc::{AllocError, Global};

// Marks a node and stacks it, unless it bears a mark.
fn visit(node: usize, marks: &mut [bool], stack: &mut Vec<usize>) -> Result<(), AllocError>
    requires { node < length marks.old }
    ensures { OnOk result (IsVisited node marks.old marks.new stack.old.items stack.new.items) }
{
    if !marks[node] {
        marks[node] = true;
        stack.push(node)?;
    }
    Ok(())
}

// Visits the ends of the edges at these places.
fn visit_row(
    edges: &[Edge],
    row: &[usize],
    marks: &mut [bool],
    stack: &mut Vec<usize>,
) -> Result<(), AllocError>
    requires edges { InRange (length marks.old) edges.now }
    requires row { All (λ k. k < length edges.now) row.now }
    ensures { OnOk result (MarksRow edges.now row.now marks.old marks.new stack.old.items stack.new.items) }
{
    for place in row {
        visit(edges[*place].to, marks, stack)?;
    }
    Ok(())
}

// Marks what a node reaches, where no mark stands yet.
fn mark_reached(
    alloc: Global,
    edges: &[Edge],
    rows: &[Vec<usize>],
    marks: &mut [bool],
    start: usize,
) -> Result<(), AllocError>
    requires edges { InRange (length marks.old) edges.now }
    requires len { length rows.now ≡ length marks.old }
    requires rows { AreRows edges.now rows.now }
    requires start { start < length marks.old }
    requires none { (v : ℕ) → slice_index_or marks.old v false ≡ false }
    ensures { OnOk result (IsReach edges.now start marks.new) }
{
    let mut stack = Vec::new(alloc);
    visit(start, marks, &mut stack)?;
    while let Some(node) = stack.pop() {
        visit_row(edges, row_of(rows, node), marks, &mut stack)?;
    }
    Ok(())
}

// How many marks stand.
fn count_marks(marks: &[bool]) -> usize
    ensures { result ≡ count_by (λ m. m) marks.now }
{
    let mut count = 0;
    for mark in marks {
        if *mark {
            count += 1;
        }
    }
    count
}

// How many nodes a node reaches.
fn reached_count(
    alloc: Global,
    edges: &[Edge],
    rows: &[Vec<usize>],
    start: usize,
) -> Result<usize, AllocError>
    requires edges { InRange (length rows.now) edges.now }
    requires rows { AreRows edges.now rows.now }
    requires start { start < length rows.now }
    ensures { IfOk result (IsReachCount edges.now (length rows.now) start) }
{
    let mut marks = vec![in alloc; false; rows.len()]?;
    mark_reached(alloc, edges, rows, &mut marks, start)?;
    Ok(count_marks(&marks))
}

/// Ranks each node by how many it reaches.
pub fn ranks_by_reach(alloc: Global, edges: &[Edge], count: usize) -> Result<Vec<usize>, AllocError>
    requires { InRange count edges.now }
    ensures ranks { IfOk result (λ ranks. IsRanking edges.now ranks.items) }
    ensures len { IfOk result (λ ranks. length ranks.items ≡ count) }
{
    let rows = rows_of(alloc, edges, count)?;
    let mut ranks = Vec::with_capacity(alloc, count)?;
    for start in 0..count {
        ranks.push(reached_count(alloc, edges, &rows, start)?)?;
    }
    Ok(ranks)
}

// Marks the nodes that these edges, which are all the other way, lead to from one.
fn marks_back(
    alloc: Global,
    back_edges: &[Edge],
    count: usize,
    to: usize,
) -> Result<Vec<bool>, AllocError>
    requires edges { InRange count back_edges.now }
    requires to { to < count }
    ensures len { IfOk result (λ marks. length marks.items ≡ count) }
    ensures marks { IfOk result (λ marks. IsReach back_edges.now to marks.items) }
{
    let rows = rows_of(alloc, back_edges, count)?;
    let mut marks = vec![in alloc; false; count]?;
    mark_reached(alloc, back_edges, &rows, &mut marks, to)?;
    Ok(marks)
}

/// Which nodes below a count lead to a node, by a list of these edges, which may be empty: so the node itself is one of
/// them. The answer has a mark for each node below the count; the time is linear in nodes and edges.
///
/// # Errors
///
/// `AllocError` for want of memory.
pub fn leading_to(
    alloc: Global,
    edges: &[Edge],
    count: usize,
    to: usize,
) -> Result<Vec<bool>, AllocError>
    requires edges { InRange count edges.now }
    requires to { to < count }
    ensures len { IfOk result (λ marks. length marks.items ≡ count) }
    ensures marks { IfOk result (λ marks. LeadTo edges.now to marks.items) }
{
    let back_edges = reversed_edges(alloc, edges)?;
    marks_back(alloc, &back_edges, count, to)
}
