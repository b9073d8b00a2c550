//! A guess at the strongly connected components, in linear time. Nothing rests on it: `certify` checks it.
ghost use Rattle.std.specs.Prelude.{◌≡◌, ◌↔◌, IfOk, IsTrue, true, false, length, slice_index_or, slice_set};
ghost use Rattle.go_digraph_core.specs.cycle.Cycle.{InRange};
ghost use Rattle.go_digraph_core.specs.cycle.mirrors.Search.{edge_at};

use crate::cycle::edge::{Edge, reversed_edges};
use crate::cycle::rows::{row_of, rows_of};
use std::alloc::{AllocError, Global};

/// Ranks of the nodes, and what shows that they are right.
#[derive(Drop)]
pub struct Guess {
    /// The rank of each node.
    pub ranks: Vec<usize>,
    /// For each node the root of its component.
    pub roots: Vec<usize>,
    /// The places of edges along which the roots lead to their nodes, in turn.
    pub out: Vec<usize>,
    /// The places of edges against which the nodes lead to their roots, in turn.
    pub back: Vec<usize>,
}

fn is_free(free: &[bool], node: usize) -> bool
    ensures { result ≡ slice_index_or free.now node false }
{
    node < free.len() && free[node]
}

// Enters a node, and answers whether it was free.
fn take(free: &mut [bool], node: usize) -> bool
    ensures set { free.new ≡ slice_set free.old node false }
    ensures was { IsTrue result ↔ (slice_index_or free.old node false ≡ true) }
{
    if node < free.len() && free[node] {
        free[node] = false;
        true
    } else {
        false
    }
}

// The node where the edge at a place ends, 0 past the last edge.
fn end_at(edges: &[Edge], place: usize) -> usize
    ensures { result ≡ (edge_at edges.now place).to }
{
    if place < edges.len() {
        edges[place].to
    } else {
        0
    }
}

// Writes an item, but not past the end.
fn put(items: &mut [usize], index: usize, item: usize)
    ensures { items.new ≡ slice_set items.old index item }
{
    if index < items.len() {
        items[index] = item;
    }
}

// What a search does next: it follows the edge at a place, or leaves a node with all that it leads to.
#[derive(Clone, Copy)]
enum Step {
    Follow(usize),
    Leave(usize),
}

// A search in depth. It enters each node once.
#[derive(Drop)]
struct Search<'a> {
    edges: &'a [Edge],
    rows: &'a [Vec<usize>],
    // Which nodes it has not entered.
    free: Vec<bool>,
    stack: Vec<Step>,
    // The places of the edges along which it entered nodes, in turn.
    places: Vec<usize>,
    // The nodes that it left, in turn.
    left: Vec<usize>,
}

impl<'a> Search<'a> {
    fn new(
        alloc: Global,
        edges: &'a [Edge],
        rows: &'a [Vec<usize>],
    ) -> Result<Search<'a>, AllocError> {
        let free = vec![in alloc; true; rows.len()]?;
        Ok(Search {
            edges,
            rows,
            free,
            stack: Vec::new(alloc),
            places: Vec::new(alloc),
            left: Vec::new(alloc),
        })
    }

    // Stacks the steps from a node that was entered: along the edges to free nodes.
    fn stack_steps(&mut self, node: usize) -> Result<(), AllocError> {
        self.stack.push(Step::Leave(node))?;
        for place in row_of(self.rows, node) {
            if is_free(&self.free, end_at(self.edges, *place)) {
                self.stack.push(Step::Follow(*place))?;
            }
        }
        Ok(())
    }

    fn take_step(&mut self, step: Step) -> Result<(), AllocError> {
        match step {
            Step::Follow(place) => {
                let node = end_at(self.edges, place);
                if take(&mut self.free, node) {
                    self.places.push(place)?;
                    self.stack_steps(node)?;
                }
            }
            Step::Leave(node) => self.left.push(node)?,
        }
        Ok(())
    }

    // Enters a node that is free and the free nodes that it leads to.
    fn descend(&mut self, start: usize) -> Result<(), AllocError> {
        if take(&mut self.free, start) {
            self.stack_steps(start)?;
        }
        let steps = self.edges.len().saturating_add(self.rows.len());
        for _ in 0..steps {
            let Some(step) = self.stack.pop() else {
                break;
            };
            self.take_step(step)?;
        }
        Ok(())
    }
}

// The nodes, those that a search against the edges leaves last first, and the places of the edges against which it
// entered them. Of each component it leaves the node last that it entered first.
fn search_back(
    alloc: Global,
    edges: &[Edge],
    count: usize,
) -> Result<(Vec<usize>, Vec<usize>), AllocError>
    requires { InRange count edges.now }
{
    let back_edges = reversed_edges(alloc, edges)?;
    let back_rows = rows_of(alloc, &back_edges, count)?;
    let mut search = Search::new(alloc, &back_edges, &back_rows)?;
    for turn in 0..count {
        search.descend(count - 1 - turn)?;
    }
    search.left.reverse();
    Ok((search.left, search.places))
}

// Takes what a root leads to, among the nodes that are free, as its component.
fn take_component(
    search: &mut Search<'_>,
    ranks: &mut [usize],
    roots: &mut [usize],
    rank: usize,
    root: usize,
) -> Result<(), AllocError> {
    let first = search.left.len();
    search.descend(root)?;
    for turn in first..search.left.len() {
        let node = search.left[turn];
        put(ranks, node, rank);
        put(roots, node, root);
    }
    Ok(())
}

// Takes the components of the nodes in this order, and answers the places of the edges along which it entered their
// nodes.
fn search_out(
    alloc: Global,
    edges: &[Edge],
    order: &[usize],
    ranks: &mut [usize],
    roots: &mut [usize],
) -> Result<Vec<usize>, AllocError>
    requires { InRange (length ranks.old) edges.now }
{
    let rows = rows_of(alloc, edges, ranks.len())?;
    let mut search = Search::new(alloc, edges, &rows)?;
    for (rank, root) in order.iter().enumerate() {
        take_component(&mut search, ranks, roots, rank, *root)?;
    }
    Ok(search.places)
}

/// Guesses ranks: the strongly connected components in an order in which no edge leads to a later one.
pub fn guess_components(alloc: Global, edges: &[Edge], count: usize) -> Result<Guess, AllocError>
    requires { InRange count edges.now }
    ensures ranks { IfOk result (λ guess. length guess.ranks.items ≡ count) }
    ensures roots { IfOk result (λ guess. length guess.roots.items ≡ count) }
{
    let (order, back) = search_back(alloc, edges, count)?;
    let mut ranks = vec![in alloc; 0; count]?;
    let mut roots = vec![in alloc; 0; count]?;
    let out = search_out(alloc, edges, &order, &mut ranks, &mut roots)?;
    Ok(Guess {
        ranks,
        roots,
        out,
        back,
    })
}
