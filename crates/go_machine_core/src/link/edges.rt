//! The graphs of packages and of functions.
ghost use Rattle.std.specs.Prelude.{◌≡◌, ◌++◌, IfOk, OnOk, map};
ghost use Rattle.std.specs.List.{flat_map};
ghost use Rattle.go_digraph_core.specs.cycle.Cycle.{reversed};
ghost use Rattle.go_machine_core.specs.Programs.{linked_shown};
ghost use Rattle.go_machine_core.specs.link.Packages.{package_shown};
ghost use Rattle.go_machine_core.specs.link.Reaching.{call_edges, edge, edge_if, import_edges};

use crate::Linked;
use crate::link::packages::Package;
use go_digraph_core::cycle::Edge;
use std::alloc::{AllocError, Global};

// Adds an edge to a number, where there is one.
fn add_edge(edges: &mut Vec<Edge>, from: usize, end: Option<usize>) -> Result<(), AllocError>
    ensures { OnOk result (edges.new.items ≡ edges.old.items ++ edge_if from end) }
{
    if let Some(to) = end {
        edges.push(Edge { from, to })?;
    }
    Ok(())
}

// Adds an edge to each of these numbers.
fn add_row(edges: &mut Vec<Edge>, from: usize, row: &[Option<usize>]) -> Result<(), AllocError>
    ensures { OnOk result (edges.new.items ≡ edges.old.items ++ flat_map (edge_if from) row.now) }
{
    for end in row {
        add_edge(edges, from, *end)?;
    }
    Ok(())
}

/// From each package to those that it imports.
pub(crate) fn import_edges(alloc: Global, packages: &[Package]) -> Result<Vec<Edge>, AllocError>
    ensures { IfOk result (λ edges. edges.items ≡ import_edges (map package_shown packages.now)) }
{
    let mut edges = Vec::new(alloc);
    for (number, package) in packages.iter().enumerate() {
        add_row(&mut edges, number, &package.imports)?;
    }
    Ok(edges)
}

/// From each function to those that it refers to.
pub(crate) fn call_edges(alloc: Global, functions: &[Linked<'_>]) -> Result<Vec<Edge>, AllocError>
    ensures { IfOk result (λ edges. edges.items ≡ call_edges (map linked_shown functions.now)) }
{
    let mut edges = Vec::new(alloc);
    for (number, function) in functions.iter().enumerate() {
        add_row(&mut edges, number, &function.callees)?;
    }
    Ok(edges)
}

/// Adds an edge from a number to each of the others.
pub(crate) fn add_starts(
    edges: &mut Vec<Edge>,
    from: usize,
    starts: &[usize],
) -> Result<(), AllocError>
    ensures { OnOk result (edges.new.items ≡ edges.old.items ++ map (edge from) starts.now) }
{
    for start in starts {
        edges.push(Edge { from, to: *start })?;
    }
    Ok(())
}

/// All edges the other way.
pub(crate) fn reversed_edges(alloc: Global, edges: &[Edge]) -> Result<Vec<Edge>, AllocError>
    ensures { IfOk result (λ back. back.items ≡ map reversed edges.now) }
{
    let mut back = Vec::new(alloc);
    for edge in edges {
        back.push(Edge {
            from: edge.to,
            to: edge.from,
        })?;
    }
    Ok(back)
}
