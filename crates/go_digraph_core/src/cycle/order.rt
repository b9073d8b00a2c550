//! Ranks and an order of the nodes of a graph.
ghost use Rattle.std.specs.Prelude.{◌≡◌, ℕ, ◌↔◌, List, Contains, IfOk, IsTrue, length, slice_index};
ghost use Rattle.std.specs.List.{range_with_len};
ghost use Rattle.std.specs.List.Sorted.{IsPermutation, IsNonDecreasingBy};
ghost use Rattle.go_digraph_core.specs.declared.cycle.edge.Edge.{Edge};
ghost use Rattle.go_digraph_core.specs.cycle.Cycle.{InRange, IsRanking, IsAfter, IsOnCycle};

use crate::cycle::certify::is_certified;
use crate::cycle::edge::Edge;
use crate::cycle::guess::guess_components;
use crate::cycle::reach::ranks_by_reach;
use std::alloc::{AllocError, Global};
use std::marker::Model;

// Ranks the nodes by a guess, where it is certified, and else by what each reaches.
fn rank(alloc: Global, edges: &[Edge], count: usize) -> Result<Vec<usize>, AllocError>
    requires { InRange count edges.now }
    ensures ranks { IfOk result (λ ranks. IsRanking edges.now ranks.items) }
    ensures len { IfOk result (λ ranks. length ranks.items ≡ count) }
{
    let guess = guess_components(alloc, edges, count)?;
    if is_certified(alloc, edges, &guess)? {
        Ok(guess.ranks)
    } else {
        ranks_by_reach(alloc, edges, count)
    }
}

// The rank of a node, 0 for one past the end.
fn rank_of(ranks: &[usize], node: usize) -> usize
    ensures { result ≡ slice_index ranks.now node }
{
    if node < ranks.len() { ranks[node] } else { 0 }
}

// The numbers below a count.
fn nodes_below(alloc: Global, count: usize) -> Result<Vec<usize>, AllocError>
    ensures { IfOk result (λ nodes. nodes.items ≡ range_with_len 0 count) }
{
    let mut nodes = Vec::with_capacity(alloc, count)?;
    for node in 0..count {
        nodes.push(node)?;
    }
    Ok(nodes)
}

// The nodes by rising rank.
fn nodes_by_rank(alloc: Global, ranks: &[usize]) -> Result<Vec<usize>, AllocError>
    ensures each { IfOk result (λ order. IsPermutation (range_with_len 0 (length ranks.now)) order.items) }
    ensures rising { IfOk result (λ order. IsNonDecreasingBy (λ node. slice_index ranks.now node) order.items) }
{
    let mut order = nodes_below(alloc, ranks.len())?;
    order.sort_unstable_by_key(|node| rank_of(ranks, *node));
    Ok(order)
}

/// The rank of each node of a graph, and its nodes in an order. Contracts see it as the two lists.
#[derive(Drop)]
pub struct Ranked {
    ranks: Vec<usize>,
    order: Vec<usize>,
}

impl Model for Ranked {
    ghost use Rattle.go_digraph_core.specs.cycle.Cycle.{Ranking, ranking};

    ghost Value = { Ranking };

    ghost view = { λ r. ranking r.ranks.items r.order.items };
}

impl Ranked {
    /// The rank of each node. Along an edge of the graph the rank falls, or the edge lies on a cycle and the
    /// ranks of its ends are equal.
    pub fn ranks(&self) -> &[usize]
        ensures { result.now ≡ self.now.ranks }
    {
        self.ranks.as_slice()
    }

    /// The nodes, each once, behind those that its edges lead to, but for edges on a cycle.
    pub fn order(&self) -> &[usize]
        ensures { result.now ≡ self.now.order }
    {
        self.order.as_slice()
    }

    /// Whether an edge of the graph that these ranks were made for lies on a cycle of it.
    pub fn is_on_cycle(&self, edge: Edge) -> bool
        ensures { (edges : List Edge) → IsRanking edges self.now.ranks → Contains edges edge
            → (IsTrue result ↔ IsOnCycle edges edge) }
    {
        rank_of(&self.ranks, edge.to) == rank_of(&self.ranks, edge.from)
    }
}

/// Ranks the nodes below a count, and lists each once, behind those that its edges lead to, but for edges on a
/// cycle.
///
/// # Errors
///
/// `AllocError` for want of memory.
pub fn rank_and_order(alloc: Global, edges: &[Edge], count: usize) -> Result<Ranked, AllocError>
    requires { InRange count edges.now }
    ensures ranks { IfOk result (λ r. IsRanking edges.now r.ranks) }
    ensures len { IfOk result (λ r. length r.ranks ≡ count) }
    ensures each { IfOk result (λ r. IsPermutation (range_with_len 0 count) r.order) }
    ensures after { IfOk result (λ r. IsAfter edges.now r.order) }
{
    let ranks = rank(alloc, edges, count)?;
    let order = nodes_by_rank(alloc, &ranks)?;
    Ok(Ranked { ranks, order })
}
