//! What the nodes of a graph reach.
ghost use Rattle.std.specs.Prelude.{◌≡◌, ◌<◌, ◌≤◌, ℕ, All, IfOk, OnOk, MatchOption, Some, length, map, slice_get};
ghost use Rattle.go_digraph_core.specs.cycle.Cycle.{InRange};
ghost use Rattle.go_digraph_core.specs.cycle.mirrors.Search.{AreEmpty};
ghost use Rattle.go_digraph_core.specs.reach.Reach.{AreReachSets, AreStarts, EndsStandBefore};
ghost use Rattle.go_digraph_core.specs.reach.mirrors.Filling.{AreEnds, AreMarksIn, Completes, EndsComeFirst, IsReachSetAt, IsUnion};

use crate::cycle::Edge;
use crate::reach::numbers::NumberSet;
use std::alloc::{AllocError, Global};
use std::marker::Model;

/// What each node of a graph reaches. Contracts see it as the list of these sets.
pub struct Reached {
    sets: Vec<NumberSet>,
}

impl Drop for Reached {
    fn drop(self) {
        let Reached { sets: _ } = self;
    }
}

impl Model for Reached {
    ghost use Rattle.std.specs.Prelude.{List};
    ghost use Rattle.go_digraph_core.specs.reach.Numbers.{Numbers};

    ghost Value = { List Numbers };

    ghost view = { λ r. r.sets.items };
}

impl Reached {
    /// What a node reaches, if there is such a node.
    pub fn of(&self, node: usize) -> Option<&NumberSet>
        ensures { MatchOption result (length self.now ≤ node) (λ s. slice_get self.now node ≡ Some s.now) }
    {
        self.sets.get(node)
    }
}

// Rows with nothing in them.
fn empty_rows(alloc: Global, count: usize) -> Result<Vec<Vec<usize>>, AllocError>
    ensures len { IfOk result (λ rows. length rows.items ≡ count) }
    ensures empty { IfOk result (λ rows. AreEmpty rows.items) }
{
    let mut rows = Vec::with_capacity(alloc, count)?;
    for _ in 0..count {
        rows.push(Vec::new(alloc))?;
    }
    Ok(rows)
}

// For each node the ends of the edges that start there.
fn ends_of(alloc: Global, count: usize, edges: &[Edge]) -> Result<Vec<Vec<usize>>, AllocError>
    requires { InRange count edges.now }
    ensures len { IfOk result (λ rows. length rows.items ≡ count) }
    ensures rows { IfOk result (λ rows. AreEnds edges.now rows.items) }
{
    let mut rows = empty_rows(alloc, count)?;
    for edge in edges {
        let row = &mut rows[edge.from];
        row.push(edge.to)?;
    }
    Ok(rows)
}

/// For each node below a count the nodes that edges lead to it from, once for each edge, in the order of the edges.
///
/// # Errors
///
/// `AllocError` for want of memory.
pub fn starts_of(alloc: Global, count: usize, edges: &[Edge]) -> Result<Vec<Vec<usize>>, AllocError>
    requires { InRange count edges.now }
    ensures len { IfOk result (λ rows. length rows.items ≡ count) }
    ensures rows { IfOk result (λ rows. AreStarts edges.now (map (λ r. r.items) rows.items)) }
{
    let mut rows = empty_rows(alloc, count)?;
    for edge in edges {
        let row = &mut rows[edge.to];
        row.push(edge.from)?;
    }
    Ok(rows)
}

// Marks on nodes that an order has.
fn marks_on(alloc: Global, order: &[usize], count: usize) -> Result<Vec<bool>, AllocError>
    requires { All (λ n. n < count) order.now }
    ensures len { IfOk result (λ marks. length marks.items ≡ count) }
    ensures marks { IfOk result (λ marks. AreMarksIn order.now marks.items) }
{
    let mut marks = vec![in alloc; false; count]?;
    for node in order {
        marks[*node] = true;
    }
    Ok(marks)
}

// The nodes of an order, and behind them the others.
fn order_and_others(alloc: Global, order: &[usize], count: usize) -> Result<Vec<usize>, AllocError>
    requires { All (λ n. n < count) order.now }
    ensures { IfOk result (λ nodes. Completes order.now count count nodes.items) }
{
    let marks = marks_on(alloc, order, count)?;
    let mut nodes: Vec<usize> = order.iter().copied().collect(alloc)?;
    for node in 0..count {
        if !marks[node] {
            nodes.push(node)?;
        }
    }
    Ok(nodes)
}

// For each node a set with nothing in it.
fn empty_sets(alloc: Global, count: usize) -> Result<Vec<NumberSet>, AllocError>
    ensures len { IfOk result (λ sets. length sets.items ≡ count) }
    ensures bound { IfOk result (λ sets. All (λ s. s.bound ≡ count) sets.items) }
{
    let mut sets = Vec::with_capacity(alloc, count)?;
    for _ in 0..count {
        sets.push(NumberSet::empty(alloc, count)?)?;
    }
    Ok(sets)
}

// Some nodes, and what is in their sets.
fn union_of(alloc: Global, ends: &[usize], sets: &[NumberSet]) -> Result<NumberSet, AllocError>
    requires ends { All (λ n. n < length sets.now) ends.now }
    requires bound { All (λ s. s.bound ≡ length sets.now) sets.now }
    ensures bound { IfOk result (λ s. s.bound ≡ length sets.now) }
    ensures members { IfOk result (λ s. IsUnion ends.now sets.now s.members) }
{
    let mut set = NumberSet::empty(alloc, sets.len())?;
    for end in ends {
        set.insert(*end);
        set.add_all(&sets[*end]);
    }
    Ok(set)
}

// Makes the set of each of the nodes in turn, of the sets of those that its edges lead to.
fn fill(
    alloc: Global,
    edges: &[Edge],
    nodes: &[usize],
    sets: &mut [NumberSet],
) -> Result<(), AllocError>
    requires edges { InRange (length sets.old) edges.now }
    requires nodes { All (λ n. n < length sets.old) nodes.now }
    requires before { EndsComeFirst edges.now nodes.now }
    requires bound { All (λ s. s.bound ≡ length sets.old) sets.old }
    ensures bound { OnOk result (All (λ s. s.bound ≡ length sets.old) sets.new) }
    ensures sets { OnOk result (All (IsReachSetAt edges.now sets.new) nodes.now) }
{
    let rows = ends_of(alloc, sets.len(), edges)?;
    for node in nodes {
        let set = union_of(alloc, &rows[*node], sets)?;
        sets[*node] = set;
    }
    Ok(())
}

/// For each node below the count the nodes that it reaches along at least one edge. The graph has no cycle: each edge
/// ends at a node of the order, before the node where it starts, if that is one of the order too.
///
/// # Errors
///
/// `AllocError` for want of memory.
pub fn find_reached(
    alloc: Global,
    count: usize,
    order: &[usize],
    edges: &[Edge],
) -> Result<Reached, AllocError>
    requires edges { InRange count edges.now }
    requires order { All (λ n. n < count) order.now }
    requires before { EndsStandBefore edges.now order.now }
    ensures len { IfOk result (λ r. length r ≡ count) }
    ensures bound { IfOk result (λ r. All (λ s. s.bound ≡ count) r) }
    ensures sets { IfOk result (λ r. AreReachSets edges.now r) }
{
    let nodes = order_and_others(alloc, order, count)?;
    let mut sets = empty_sets(alloc, count)?;
    fill(alloc, edges, &nodes, &mut sets)?;
    Ok(Reached { sets })
}
