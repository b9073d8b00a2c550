//! The check of a guess.
ghost use Rattle.std.specs.Prelude.{◌≡◌, ◌<◌, ◌↔◌, IfOk, IsTrue, All, length};
ghost use Rattle.go_digraph_core.specs.cycle.mirrors.Certificate.{Holds, IsCertificate, is_linked, marks_after, marks_along};
ghost use Rattle.go_digraph_core.specs.cycle.Cycle.{InRange, IsRanking};

use crate::cycle::edge::{Edge, reversed_edges};
use crate::cycle::guess::Guess;
use std::alloc::{AllocError, Global};

// Whether a node is its own root or bears a mark.
fn is_linked(roots: &[usize], marks: &[bool], node: usize) -> bool
    requires roots { node < length roots.now }
    requires marks { node < length marks.now }
    ensures { result ≡ is_linked roots.now marks.now node }
{
    node == roots[node] || marks[node]
}

// Marks the end of an edge whose ends have one root and whose start is linked.
fn mark_end(edge: Edge, roots: &[usize], marks: &mut [bool])
    requires edge { (edge.from < length roots.now) × (edge.to < length roots.now) }
    requires marks { length marks.old ≡ length roots.now }
    ensures { marks.new ≡ marks_after roots.now marks.old edge }
{
    if roots[edge.from] == roots[edge.to] && is_linked(roots, marks, edge.from) {
        marks[edge.to] = true;
    }
}

// The marks along the edges at these places in turn: on nodes that their roots lead to.
fn marks_along(
    alloc: Global,
    edges: &[Edge],
    roots: &[usize],
    places: &[usize],
) -> Result<Vec<bool>, AllocError>
    requires { InRange (length roots.now) edges.now }
    ensures marks { IfOk result (λ marks. marks.items ≡ marks_along edges.now roots.now places.now) }
    ensures len { IfOk result (λ marks. length marks.items ≡ length roots.now) }
{
    let mut marks = vec![in alloc; false; roots.len()]?;
    for place in places {
        if *place < edges.len() {
            mark_end(edges[*place], roots, &mut marks);
        }
    }
    Ok(marks)
}

// Whether one edge agrees with ranks, roots and marks.
fn holds_at(edge: Edge, ranks: &[usize], roots: &[usize], out: &[bool], back: &[bool]) -> bool
    requires edge { (edge.from < length ranks.now) × (edge.to < length ranks.now) }
    requires roots { length roots.now ≡ length ranks.now }
    requires out { length out.now ≡ length ranks.now }
    requires back { length back.now ≡ length ranks.now }
    ensures { IsTrue result ↔ Holds ranks.now roots.now out.now back.now edge }
{
    let Edge { from, to } = edge;
    ranks[to] < ranks[from]
        || (ranks[to] == ranks[from]
            && roots[to] == roots[from]
            && is_linked(roots, back, to)
            && is_linked(roots, out, from))
}

// Whether all edges agree with ranks, roots and marks.
fn all_hold(edges: &[Edge], ranks: &[usize], roots: &[usize], out: &[bool], back: &[bool]) -> bool
    requires edges { InRange (length ranks.now) edges.now }
    requires roots { length roots.now ≡ length ranks.now }
    requires out { length out.now ≡ length ranks.now }
    requires back { length back.now ≡ length ranks.now }
    ensures { IsTrue result ↔ All (Holds ranks.now roots.now out.now back.now) edges.now }
{
    for edge in edges {
        if !holds_at(*edge, ranks, roots, out, back) {
            return false;
        }
    }
    true
}

/// Whether the roots and places of a guess show that its ranks are right.
pub fn is_certified(alloc: Global, edges: &[Edge], guess: &Guess) -> Result<bool, AllocError>
    requires edges { InRange (length guess.now.ranks.items) edges.now }
    requires roots { length guess.now.roots.items ≡ length guess.now.ranks.items }
    ensures exact { IfOk result (λ yes. IsTrue yes ↔ IsCertificate edges.now guess.now.ranks.items
        guess.now.roots.items guess.now.out.items guess.now.back.items) }
    ensures sound { IfOk result (λ yes. IsTrue yes → IsRanking edges.now guess.now.ranks.items) }
{
    let back_edges = reversed_edges(alloc, edges)?;
    let out = marks_along(alloc, edges, &guess.roots, &guess.out)?;
    let back = marks_along(alloc, &back_edges, &guess.roots, &guess.back)?;
    Ok(all_hold(edges, &guess.ranks, &guess.roots, &out, &back))
}
