//! What a program reaches.
ghost use Rattle.std.specs.Prelude.{◌≡◌, ◌<◌, ◌≤◌, ◌↔◌, ℕ, IfOk, MatchOption, true, false, length, map, slice_index_or};
ghost use Rattle.go_digraph_core.specs.cycle.Cycle.{InRange, Reaches};
ghost use Rattle.go_machine_core.specs.Programs.{linked_shown};
ghost use Rattle.go_machine_core.specs.link.Packages.{package_shown};
ghost use Rattle.go_machine_core.specs.link.Reaching.{AreReached, IsFirstOutside, ReachesOutside, has_none, is_outside, lacks_object};
ghost use Rattle.go_machine_core.specs.link.mirrors.Numbering.{AreBelow, AreRowsBelow, any_marked, first_marked};

use crate::Linked;
use crate::link::edges::{add_starts, call_edges, import_edges, reversed_edges};
use crate::link::packages::Package;
use go_digraph_core::cycle::{Edge, leading_to};
use go_object_core::instructions::Instruction;
use std::alloc::{AllocError, Global};

// Marks on the nodes that a node reaches.
fn reached_from(
    alloc: Global,
    edges: &[Edge],
    count: usize,
    from: usize,
) -> Result<Vec<bool>, AllocError>
    requires edges { InRange count edges.now }
    requires from { from < count }
    ensures many { IfOk result (λ marks. length marks.items ≡ count) }
    ensures marks { IfOk result (λ marks. (n : ℕ) → (slice_index_or marks.items n false ≡ true) ↔ Reaches edges.now from n) }
{
    let back = reversed_edges(alloc, edges)?;
    let marks = leading_to(alloc, &back, count, from)?;
    Ok(marks)
}

/// Marks on the packages that a package reaches by imports, itself among them.
pub(crate) fn reached_packages(
    alloc: Global,
    packages: &[Package],
    from: usize,
) -> Result<Vec<bool>, AllocError>
    requires below { AreRowsBelow (length packages.now) (map (λ p. p.imports) (map package_shown packages.now)) }
    requires from { from < length packages.now }
    ensures { IfOk result (λ marks. AreReached (map package_shown packages.now) from marks.items) }
{
    let count = packages.len();
    let edges = import_edges(alloc, packages)?;
    let marks = reached_from(alloc, &edges, count, from)?;
    Ok(marks)
}

// Whether one of these has no object.
fn has_none(imports: &[Option<usize>]) -> bool
    ensures { result ≡ has_none imports.now }
{
    for import in imports {
        if import.is_none() {
            return true;
        }
    }
    false
}

/// Whether a package that bears a mark imports one that has no object.
pub(crate) fn marked_lacks(packages: &[Package], marks: &[bool]) -> bool
    requires { length packages.now ≤ length marks.now }
    ensures { result ≡ any_marked lacks_object (map package_shown packages.now) marks.now }
{
    for (number, package) in packages.iter().enumerate() {
        if marks[number] && has_none(&package.imports) {
            return true;
        }
    }
    false
}

// Whether no code is made of a function.
fn is_outside(code: &[Instruction]) -> bool
    ensures { result ≡ is_outside code.now }
{
    matches!(code, [Instruction::Outside])
}

// The number of the first function that bears a mark and of which no code is made.
fn marked_outside(functions: &[Linked<'_>], marks: &[bool]) -> Option<usize>
    requires { length functions.now ≤ length marks.now }
    ensures { result ≡ first_marked (λ f. is_outside f.code) 0 (map linked_shown functions.now) marks.now }
{
    for (number, function) in functions.iter().enumerate() {
        if marks[number] && is_outside(function.code) {
            return Some(number);
        }
    }
    None
}

/// The number of the first function of which no code is made and to which references lead, from one of those that begin the program.
pub(crate) fn outside_of(
    alloc: Global,
    functions: &[Linked<'_>],
    starts: &[usize],
) -> Result<Option<usize>, AllocError>
    requires below { AreRowsBelow (length functions.now) (map (λ f. f.callees) (map linked_shown functions.now)) }
    requires starts { AreBelow (length functions.now) starts.now }
    ensures { IfOk result (λ outside. MatchOption outside (¬ ReachesOutside (map linked_shown functions.now) starts.now) (IsFirstOutside (map linked_shown functions.now) starts.now)) }
{
    let source = functions.len();
    let mut edges = call_edges(alloc, functions)?;
    add_starts(&mut edges, source, starts)?;
    let Some(count) = source.checked_add(1) else {
        return Err(AllocError);
    };
    let marks = reached_from(alloc, &edges, count, source)?;
    let outside = marked_outside(functions, &marks);
    Ok(outside)
}
