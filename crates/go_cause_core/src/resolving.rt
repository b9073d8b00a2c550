//! From what is found in the trees to the number of a fault that each fault may follow from.
ghost use Rattle.std.specs.Prelude.{◌≡◌, ◌<◌, ℕ, IfOk, IfSome, OnOk, length};
ghost use Rattle.go_digraph_core.specs.chain.Chains.{AllInside};
ghost use Rattle.go_digraph_core.specs.cycle.Cycle.{InRange};

use crate::found::{Blame, CycleImport, DeclAt, Found, Link, Note, Said, TypeOf, note_number};
use go_denote_core::text_core::Rule;
use go_digraph_core::chain::chain_ends;
use go_digraph_core::cycle::{Edge, rank_and_order};
use go_snap_core::PlacedFault;
use std::alloc::{AllocError, Global};

// Through how many declarations the type of a value is looked for.
const MOST_STEPS: usize = 16;

// The number of the note that a note leads to.
fn next_of(notes: &[Note], note: Note) -> Option<usize>
    ensures { IfSome result (λ number. number < length notes.now) }
{
    match note.said.blame {
        Some(Blame::Declared(at)) => note_number(notes, at),
        Some(Blame::Fault(_)) => None,
        Some(Blame::Embedded(_)) => None,
        None => None,
    }
}

// Of each note the number of the one that it leads to.
fn next_notes(alloc: Global, notes: &[Note]) -> Result<Vec<Option<usize>>, AllocError>
    ensures { IfOk result (λ next. AllInside next.items) }
{
    let mut next = Vec::new(alloc);
    for number in 0..notes.len() {
        next.push(next_of(notes, notes[number]))?;
    }
    Ok(next)
}

// Of each note the number of the one at which the way from it ends.
fn ends_of(alloc: Global, notes: &[Note]) -> Result<Vec<Option<usize>>, AllocError> {
    let next = next_notes(alloc, notes)?;
    let ends = chain_ends(alloc, &next)?;
    Ok(ends)
}

// The fault by which a declaration has no type, where the notes lead to these ends.
fn fault_of(notes: &[Note], ends: &[Option<usize>], at: DeclAt) -> Option<usize> {
    let number = note_number(notes, at)?;
    let end = match ends.get(number) {
        Some(Some(end)) => *end,
        Some(None) => return None,
        None => return None,
    };
    let note = notes.get(end)?;
    match note.said.blame {
        Some(Blame::Fault(fault)) => Some(fault),
        Some(Blame::Declared(_)) => None,
        Some(Blame::Embedded(_)) => None,
        None => None,
    }
}

// What is known of a declaration.
fn said_of(notes: &[Note], at: DeclAt) -> Option<Said> {
    let number = note_number(notes, at)?;
    let note = notes.get(number)?;
    Some(note.said)
}

// Of which embedded field of a type it is to be asked: that of the type, or that of a type that it embeds.
fn embedded_step(notes: &[Note], said: Said) -> Option<TypeOf> {
    match said.embedded {
        None => said.of,
        Some(Blame::Declared(inner)) => {
            let deeper = said_of(notes, inner)?;
            if deeper.embedded.is_some() {
                Some(TypeOf::Type(inner))
            } else {
                None
            }
        }
        Some(Blame::Fault(_)) => None,
        Some(Blame::Embedded(_)) => None,
    }
}

// By what an embedded field of a type has no type: the type is looked for through so many declarations at most.
fn embedded_in(notes: &[Note], of: TypeOf) -> Option<Blame> {
    let mut of = of;
    for _step in 0..MOST_STEPS {
        match of {
            TypeOf::Value(at) => of = said_of(notes, at)?.of?,
            TypeOf::Type(at) => {
                let said = said_of(notes, at)?;
                match embedded_step(notes, said) {
                    Some(next) => of = next,
                    None => return said.embedded,
                }
            }
        }
    }
    None
}

// The fault that something is to be blamed on which is no embedded field.
fn blamed_apart(notes: &[Note], ends: &[Option<usize>], blame: Option<Blame>) -> Option<usize> {
    match blame {
        Some(Blame::Fault(fault)) => Some(fault),
        Some(Blame::Declared(at)) => fault_of(notes, ends, at),
        Some(Blame::Embedded(_)) => None,
        None => None,
    }
}

// The fault that something is to be blamed on.
fn blamed(notes: &[Note], ends: &[Option<usize>], blame: Option<Blame>) -> Option<usize> {
    match blame {
        Some(Blame::Fault(fault)) => Some(fault),
        Some(Blame::Declared(at)) => fault_of(notes, ends, at),
        Some(Blame::Embedded(of)) => blamed_apart(notes, ends, embedded_in(notes, of)),
        None => None,
    }
}

// Adds an edge between two faults.
#[tactic(auto, using(crate::proofs::Directly::edge_more))]
fn add_edge(
    edges: &mut Vec<Edge>,
    faults: &[PlacedFault],
    from: usize,
    to: usize,
) -> Result<(), AllocError>
    requires { InRange (length faults.now) edges.old.items }
    ensures { OnOk result (InRange (length faults.now) edges.new.items) }
{
    if from >= faults.len() || to >= faults.len() {
        return Ok(());
    }
    edges.push(Edge { from, to })?;
    Ok(())
}

// Of each package the first fault of an import on a cycle.
fn cycle_nodes(
    alloc: Global,
    packages: usize,
    faults: &[PlacedFault],
    cycles: &[CycleImport],
) -> Result<Vec<Option<usize>>, AllocError> {
    let mut nodes: Vec<Option<usize>> = vec![in alloc; None; packages]?;
    for cycle in cycles {
        if let Some(fault) = faults.get(cycle.fault) {
            if fault.package < nodes.len() && nodes[fault.package].is_none() {
                nodes[fault.package] = Some(cycle.fault);
            }
        }
    }
    Ok(nodes)
}

// The fault that stands for a package.
fn node_of(nodes: &[Option<usize>], package: usize) -> Option<usize> {
    match nodes.get(package) {
        Some(node) => *node,
        None => None,
    }
}

// Notes that a fault of an import on a cycle follows from the first of its package.
fn note_cycle(candidates: &mut [Option<usize>], fault: usize, first: Option<usize>) {
    if fault < candidates.len() && first != Some(fault) {
        candidates[fault] = first;
    }
}

// Adds the edge of an import on a cycle, between the faults that stand for the two packages.
fn add_cycle(
    edges: &mut Vec<Edge>,
    faults: &[PlacedFault],
    from: Option<usize>,
    to: Option<usize>,
) -> Result<(), AllocError>
    requires { InRange (length faults.now) edges.old.items }
    ensures { OnOk result (InRange (length faults.now) edges.new.items) }
{
    match from {
        None => Ok(()),
        Some(from) => match to {
            None => Ok(()),
            Some(to) => add_edge(edges, faults, from, to),
        },
    }
}

// The number of the package of a fault.
fn package_of(faults: &[PlacedFault], number: usize) -> usize {
    match faults.get(number) {
        Some(fault) => fault.package,
        None => usize::MAX,
    }
}

// Adds the edges of imports on cycles, and notes that each but the first of a package follows from that.
fn add_cycles(
    edges: &mut Vec<Edge>,
    candidates: &mut [Option<usize>],
    faults: &[PlacedFault],
    cycles: &[CycleImport],
    nodes: &[Option<usize>],
) -> Result<(), AllocError>
    requires { InRange (length faults.now) edges.old.items }
    ensures { OnOk result (InRange (length faults.now) edges.new.items) }
{
    for number in 0..cycles.len() {
        let cycle = cycles[number];
        let from = node_of(nodes, package_of(faults, cycle.fault));
        note_cycle(candidates, cycle.fault, from);
        add_cycle(edges, faults, from, node_of(nodes, cycle.to))?;
    }
    Ok(())
}

// Whether two faults of these numbers are of one rule.
fn are_alike(faults: &[PlacedFault], one: usize, other: usize) -> bool {
    match (faults.get(one), faults.get(other)) {
        (Some(one), Some(other)) => one.rule == other.rule,
        _ => false,
    }
}

// The fault of the declaration that a link leads to, where it is of the same rule.
fn linked(faults: &[PlacedFault], notes: &[Note], link: Link) -> Option<usize> {
    match said_of(notes, link.to)?.blame {
        Some(Blame::Fault(fault)) => {
            if are_alike(faults, link.fault, fault) {
                Some(fault)
            } else {
                None
            }
        }
        Some(Blame::Declared(_)) => None,
        Some(Blame::Embedded(_)) => None,
        None => None,
    }
}

// Adds the edges of declarations that contain themselves or are defined by themselves.
fn add_links(
    edges: &mut Vec<Edge>,
    faults: &[PlacedFault],
    notes: &[Note],
    links: &[Link],
) -> Result<(), AllocError>
    requires { InRange (length faults.now) edges.old.items }
    ensures { OnOk result (InRange (length faults.now) edges.new.items) }
{
    for number in 0..links.len() {
        let link = links[number];
        add_cycle(edges, faults, Some(link.fault), linked(faults, notes, link))?;
    }
    Ok(())
}

// Notes that each fault that leads back to itself follows from the first on its circle.
fn add_firsts(
    alloc: Global,
    candidates: &mut [Option<usize>],
    ranks: &[usize],
) -> Result<(), AllocError> {
    let mut firsts: Vec<Option<usize>> = vec![in alloc; None; ranks.len()]?;
    for number in 0..ranks.len() {
        let rank = ranks[number];
        if rank < firsts.len() {
            match firsts[rank] {
                None => firsts[rank] = Some(number),
                Some(first) => {
                    if number < candidates.len() {
                        candidates[number] = Some(first);
                    }
                }
            }
        }
    }
    Ok(())
}

// The edges between the faults of circles.
fn circle_edges(
    alloc: Global,
    packages: usize,
    faults: &[PlacedFault],
    found: &Found,
    candidates: &mut [Option<usize>],
) -> Result<Vec<Edge>, AllocError>
    ensures { IfOk result (λ edges. InRange (length faults.now) edges.items) }
{
    let nodes = cycle_nodes(alloc, packages, faults, &found.cycles)?;
    let mut edges = Vec::new(alloc);
    add_cycles(&mut edges, candidates, faults, &found.cycles, &nodes)?;
    add_links(&mut edges, faults, &found.notes, &found.links)?;
    Ok(edges)
}

// Notes of which fault of its circle a fault follows.
fn add_circles(
    alloc: Global,
    packages: usize,
    faults: &[PlacedFault],
    found: &Found,
    candidates: &mut [Option<usize>],
) -> Result<(), AllocError> {
    let edges = circle_edges(alloc, packages, faults, found, candidates)?;
    let ranked = rank_and_order(alloc, &edges, faults.len())?;
    add_firsts(alloc, candidates, ranked.ranks())
}

/// Of each fault the number of the fault that it may follow from, among so many packages.
pub(crate) fn candidates(
    alloc: Global,
    packages: usize,
    faults: &[PlacedFault],
    found: &Found,
) -> Result<Vec<Option<usize>>, AllocError> {
    let ends = ends_of(alloc, &found.notes)?;
    let mut candidates = Vec::new(alloc);
    for blame in &found.direct {
        candidates.push(blamed(&found.notes, &ends, *blame))?;
    }
    add_circles(alloc, packages, faults, found, &mut candidates)?;
    Ok(candidates)
}
