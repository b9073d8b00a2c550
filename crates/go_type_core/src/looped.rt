//! Which types reach themselves.
ghost use Rattle.std.specs.Prelude.{◌≡◌, ◌↔◌, ◌<◌, ◌++◌, ◌∷◌, [], IfOk, IsTrue, length, map, OnOk, Some};
ghost use Rattle.go_digraph_core.specs.cycle.Cycle.{InRange, IsRanking};
ghost use Rattle.go_table_core.specs.Shown.{entry_shown};
ghost use Rattle.go_table_core.specs.Tables.{AreOf, KeysRise};
ghost use Rattle.go_term_core.specs.Shapes.{fields_in, line_at, line_shapes, shape};
ghost use Rattle.go_type_core.specs.Built.{AreLoopedEntries, direct_fields, direct_keys};
ghost use Rattle.go_type_core.specs.mirrors.Edges.{all_uses, Falls, HasAlso, LineAdded, MarksTo, SameEdges, marks_if, uses_from};
ghost use Rattle.go_type_core.specs.mirrors.Numbers.{keys_of};

use crate::own_keys::OwnKeys;
use go_digraph_core::cycle::{Edge, Ranked, rank_and_order};
use go_table_core::TypeEntry;
use go_table_core::path_core::ImportPath;
use go_term_core::decl_core::DeclKey;
use go_term_core::{Field, FieldLine, TypeTerm};
use std::alloc::{AllocError, Global};

// Adds the edge to a type, if it is of the package.
fn push_use(
    keys: &OwnKeys,
    from: usize,
    key: &DeclKey,
    edges: &mut Vec<Edge>,
) -> Result<(), AllocError>
    ensures { OnOk result (edges.new.items ≡ edges.old.items ++ uses_from keys.now from (key.now ∷ [])) }
{
    if let Some(to) = keys.number(key) {
        edges.push(Edge { from, to })?;
    }
    Ok(())
}

// Adds the edges to the types of the package that a type uses outside pointers and interfaces.
#[cycle(uses)]
#[tactic(auto, using(crate::proofs::OnceEach::also_nothing))]
fn push_uses(
    keys: &OwnKeys,
    from: usize,
    term: &TypeTerm,
    edges: &mut Vec<Edge>,
) -> Result<(), AllocError>
    ensures { OnOk result (HasAlso edges.old.items (uses_from keys.now from (direct_keys (shape term.now))) edges.new.items) }
{
    match term {
        TypeTerm::Defined(key) => push_use(keys, from, key, edges),
        TypeTerm::Struct(_, fields, lines) => push_fields(keys, from, lines, fields, edges),
        TypeTerm::Pointer(_) => Ok(()),
        TypeTerm::NoType | TypeTerm::Basic(_) | TypeTerm::Error | TypeTerm::Interface(_, _) => Ok(
            (),
        ),
    }
}

// Adds the edges to those that fields use: those of a line once, and not for each of its names.
#[cycle(uses)]
fn push_fields(
    keys: &OwnKeys,
    from: usize,
    lines: &Vec<FieldLine>,
    fields: &Vec<Field>,
    edges: &mut Vec<Edge>,
) -> Result<(), AllocError>
    ensures { OnOk result (HasAlso edges.old.items (uses_from keys.now from (direct_fields (fields_in (line_shapes lines.now.items) fields.now.items))) edges.new.items) }
{
    let mut met = None;
    for field in fields {
        push_line(keys, from, lines, field.line, met, edges)?;
        met = Some(field.line);
    }
    Ok(())
}

// Whether a line was met last.
fn is_last(met: Option<usize>, line: usize) -> bool
    ensures { IsTrue result ↔ (met ≡ Some line) }
{
    match met {
        Some(last) => last == line,
        None => false,
    }
}

// Adds the edges to those that a line uses, unless it was met last.
#[cycle(uses)]
fn push_line(
    keys: &OwnKeys,
    from: usize,
    lines: &Vec<FieldLine>,
    number: usize,
    met: Option<usize>,
    edges: &mut Vec<Edge>,
) -> Result<(), AllocError>
    ensures { OnOk result (LineAdded (uses_from keys.now from (direct_keys (line_at (line_shapes lines.now.items) number).term)) met number edges.old.items edges.new.items) }
{
    if is_last(met, number) {
        return Ok(());
    }
    match lines.get(number) {
        Some(line) => push_uses(keys, from, &line.term, edges),
        None => Ok(()),
    }
}

// The edges of the types of a package to those that they use: each of them, and no other.
fn all_uses(alloc: Global, keys: &OwnKeys, entries: &[TypeEntry]) -> Result<Vec<Edge>, AllocError>
    ensures { IfOk result (λ edges. SameEdges edges.items (all_uses keys.now 0 (map entry_shown entries.now))) }
{
    let mut edges = Vec::new(alloc);
    for (number, entry) in entries.iter().enumerate() {
        push_uses(keys, number, &entry.term, &mut edges)?;
    }
    Ok(edges)
}

// Marks a number, if it is to be.
fn mark_if(marks: &mut Vec<bool>, number: usize, is_marked: bool)
    requires { number < length marks.old.items }
    ensures { marks.new.items ≡ marks_if marks.old.items number is_marked }
{
    if is_marked {
        marks[number] = true;
    }
}

// Marks the starts of the edges that lie on cycles.
fn mark_loops(
    alloc: Global,
    edges: &[Edge],
    ranked: &Ranked,
    count: usize,
) -> Result<Vec<bool>, AllocError>
    requires range { InRange count edges.now }
    requires ranking { IsRanking edges.now ranked.now.ranks }
    ensures { IfOk result (λ marks. MarksTo edges.now edges.now count marks.items) }
{
    let mut marks = vec![in alloc; false; count]?;
    for edge in edges {
        mark_if(&mut marks, edge.from, ranked.is_on_cycle(*edge));
    }
    Ok(marks)
}

/// Marks the types of a package that reach themselves outside pointers and interfaces.
pub(crate) fn looped_types(
    alloc: Global,
    keys: &OwnKeys,
    entries: &[TypeEntry],
) -> Result<Vec<bool>, AllocError>
    requires keys { keys.now ≡ keys_of (map entry_shown entries.now) }
    requires rising { KeysRise (map entry_shown entries.now) }
    ensures len { IfOk result (λ marks. length marks.items ≡ length entries.now) }
    ensures looped { IfOk result (λ marks. AreLoopedEntries (map entry_shown entries.now) marks.items) }
    ensures falls { IfOk result (λ marks. Falls (map entry_shown entries.now) marks.items) }
{
    let edges = all_uses(alloc, keys, entries)?;
    let ranked = rank_and_order(alloc, &edges, entries.len())?;
    mark_loops(alloc, &edges, &ranked, entries.len())
}

/// Which types of the package of a path reach themselves outside pointers and interfaces, by their places in the list: each by what is
/// written of it, in order of file and place. It takes time that is linear in what is written, but for look-ups.
///
/// # Errors
///
/// `AllocError` where memory is wanting.
pub fn type_loops(
    alloc: Global,
    path: &ImportPath,
    entries: &[TypeEntry],
) -> Result<Vec<bool>, AllocError>
    requires own { AreOf path.now (map entry_shown entries.now) }
    requires rising { KeysRise (map entry_shown entries.now) }
    ensures len { IfOk result (λ marks. length marks.items ≡ length entries.now) }
    ensures looped { IfOk result (λ marks. AreLoopedEntries (map entry_shown entries.now) marks.items) }
{
    let keys = OwnKeys::of(alloc, path, entries)?;
    looped_types(alloc, &keys, entries)
}
