//! What is no type.
ghost use Rattle.std.specs.Prelude.{◌≡◌, IfOk, length, map};
ghost use Rattle.go_table_core.specs.Entries.{find_entry};
ghost use Rattle.go_table_core.specs.Shown.{entry_shown};
ghost use Rattle.go_table_core.specs.Tables.{KeysRise};
ghost use Rattle.go_term_core.specs.Shapes.{shape};
ghost use Rattle.go_type_core.specs.Built.{AreLoopedEntries, base};
ghost use Rattle.go_type_core.specs.mirrors.Chained.{AreNothing, is_bad_end, is_lacking, named_number, next_bare, nothing_at};
ghost use Rattle.go_type_core.specs.mirrors.Numbers.{IsTable, keys_of, term_at};

use crate::marks::{end_at, is_marked, next_unless};
use crate::own_keys::OwnKeys;
use go_digraph_core::chain::chain_ends;
use go_table_core::{TypeEntry, TypeTable};
use go_term_core::{TypeTerm, is_no_type};
use std::alloc::{AllocError, Global};

// A type with all its stars taken off.
fn base_of(term: &TypeTerm) -> &TypeTerm
    ensures { shape result.now ≡ base (shape term.now) }
{
    match term {
        TypeTerm::Pointer(inner) => base_of(inner),
        TypeTerm::NoType
        | TypeTerm::Basic(_)
        | TypeTerm::Error
        | TypeTerm::Defined(_)
        | TypeTerm::Struct(_, _, _)
        | TypeTerm::Interface(_, _) => term,
    }
}

/// The number of the type of the package that a type names, or none where it names none.
pub(crate) fn named_number(keys: &OwnKeys, term: &TypeTerm) -> Option<usize>
    ensures { result ≡ named_number keys.now (shape term.now) }
{
    match term {
        TypeTerm::Defined(key) => keys.number(key),
        TypeTerm::NoType
        | TypeTerm::Basic(_)
        | TypeTerm::Error
        | TypeTerm::Pointer(_)
        | TypeTerm::Struct(_, _, _)
        | TypeTerm::Interface(_, _) => None,
    }
}

// Whether it is no type, or the name of another package's that is none or is not known.
fn is_lacking(imported: &TypeTable, term: &TypeTerm) -> bool
    ensures { result ≡ is_lacking (find_entry imported.now) (shape term.now) }
{
    match term {
        TypeTerm::NoType => true,
        TypeTerm::Defined(key) => match imported.locate(key) {
            Some(located) => is_no_type(located.defined.underlying()),
            None => true,
        },
        TypeTerm::Basic(_)
        | TypeTerm::Error
        | TypeTerm::Pointer(_)
        | TypeTerm::Struct(_, _, _)
        | TypeTerm::Interface(_, _) => false,
    }
}

// Whether what a type comes to without its stars is lacking.
fn lacks_at(imported: &TypeTable, entries: &[TypeEntry], number: usize) -> bool
    ensures { result ≡ is_lacking (find_entry imported.now) (base (term_at (map entry_shown entries.now) number)) }
{
    match entries.get(number) {
        Some(entry) => is_lacking(imported, base_of(&entry.term)),
        None => true,
    }
}

// Whether a chain that ends here leads to what is no type.
fn is_bad_end(imported: &TypeTable, looped: &[bool], entries: &[TypeEntry], end: usize) -> bool
    ensures { result ≡ is_bad_end (find_entry imported.now) looped.now (map entry_shown entries.now) end }
{
    is_marked(looped, end) || lacks_at(imported, entries, end)
}

// Whether the type with a number is none.
fn nothing_at(
    imported: &TypeTable,
    looped: &[bool],
    entries: &[TypeEntry],
    ends: &[Option<usize>],
    number: usize,
) -> bool
    ensures { result ≡ nothing_at (find_entry imported.now) looped.now (map entry_shown entries.now) ends.now number }
{
    match end_at(ends, number) {
        Some(end) => is_bad_end(imported, looped, entries, end),
        None => false,
    }
}

// For each type the type of the package that it is defined by through names and stars, but for types that reach themselves.
fn next_bare(
    alloc: Global,
    keys: &OwnKeys,
    looped: &[bool],
    entries: &[TypeEntry],
) -> Result<Vec<Option<usize>>, AllocError>
    ensures { IfOk result (λ next. IsTable next.items (length entries.now) (next_bare keys.now looped.now (map entry_shown entries.now))) }
{
    let mut next = Vec::with_capacity(alloc, entries.len())?;
    for (number, entry) in entries.iter().enumerate() {
        let named = named_number(keys, base_of(&entry.term));
        next.push(next_unless(is_marked(looped, number), named))?;
    }
    Ok(next)
}

// Marks the types that are none.
fn mark_nothing(
    alloc: Global,
    imported: &TypeTable,
    looped: &[bool],
    entries: &[TypeEntry],
    ends: &[Option<usize>],
) -> Result<Vec<bool>, AllocError>
    ensures { IfOk result (λ marks. IsTable marks.items (length entries.now) (nothing_at (find_entry imported.now) looped.now (map entry_shown entries.now) ends.now)) }
{
    let mut marks = Vec::with_capacity(alloc, entries.len())?;
    for number in 0..entries.len() {
        marks.push(nothing_at(imported, looped, entries, ends, number))?;
    }
    Ok(marks)
}

/// Marks the types of a package that are none: those that reach themselves, and those that lead to what is none through names and stars.
pub(crate) fn nothing_types(
    alloc: Global,
    imported: &TypeTable,
    keys: &OwnKeys,
    looped: &[bool],
    entries: &[TypeEntry],
) -> Result<Vec<bool>, AllocError>
    requires keys { keys.now ≡ keys_of (map entry_shown entries.now) }
    requires rising { KeysRise (map entry_shown entries.now) }
    requires looped { AreLoopedEntries (map entry_shown entries.now) looped.now }
    ensures { IfOk result (λ marks. AreNothing (map entry_shown entries.now) (find_entry imported.now) marks.items) }
{
    let next = next_bare(alloc, keys, looped, entries)?;
    let ends = chain_ends(alloc, &next)?;
    mark_nothing(alloc, imported, looped, entries, &ends)
}
