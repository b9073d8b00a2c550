//! Kinds, by the ends of chains of names.
ghost use Rattle.std.specs.Prelude.{◌≡◌, IfOk, length, map, slice_index_or};
ghost use Rattle.go_table_core.specs.Entries.{find_entry};
ghost use Rattle.go_table_core.specs.Shown.{entry_shown};
ghost use Rattle.go_table_core.specs.Tables.{KeysRise};
ghost use Rattle.go_term_core.specs.Shapes.{shape};
ghost use Rattle.go_type_core.specs.mirrors.Chained.{AreRootEnds, kind_at, next_named, root_kind};
ghost use Rattle.go_type_core.specs.mirrors.Numbers.{IsTable, keys_of};

use crate::marks::{is_marked, next_unless, root_at};
use crate::nothing::named_number;
use crate::own_keys::OwnKeys;
use go_digraph_core::chain::chain_ends;
use go_table_core::{TypeEntry, TypeTable};
use go_term_core::TypeTerm;
use go_term_core::decl_core::DeclKey;
use go_term_core::settling::{Kind, Kinds};
use std::alloc::{AllocError, Global};

/// The kinds of all defined types: those of a package by their numbers, and those of other packages.
#[derive(Clone, Copy)]
pub(crate) struct KnownKinds<'a> {
    pub(crate) keys: &'a OwnKeys,
    pub(crate) kinds: &'a [Kind],
    pub(crate) imported: &'a TypeTable,
}

// The kind with a number.
fn numbered_kind(kinds: &[Kind], number: usize) -> Kind
    ensures { result ≡ slice_index_or kinds.now number Kind.Nothing }
{
    if number < kinds.len() {
        kinds[number]
    } else {
        Kind::Nothing
    }
}

impl Kinds for KnownKinds<'_> {
    ghost use Rattle.go_table_core.specs.Entries.{find_entry};
    ghost use Rattle.go_type_core.specs.mirrors.Chained.{known_kind};

    ghost kinds = { λ k. known_kind k.keys.now k.kinds.now (find_entry k.imported.now) };

    /// The kind of the defined type of a declaration.
    fn kind(&self, key: &DeclKey) -> Kind {
        match self.keys.number(key) {
            Some(number) => numbered_kind(self.kinds, number),
            None => self.imported.kind(key),
        }
    }
}

// For each type the type of the package that it is defined by through its name, but for types that reach themselves.
fn next_named(
    alloc: Global,
    keys: &OwnKeys,
    looped: &[bool],
    entries: &[TypeEntry],
) -> Result<Vec<Option<usize>>, AllocError>
    ensures { IfOk result (λ next. IsTable next.items (length entries.now) (next_named keys.now looped.now (map entry_shown entries.now))) }
{
    let mut next = Vec::with_capacity(alloc, entries.len())?;
    for (number, entry) in entries.iter().enumerate() {
        let named = named_number(keys, &entry.term);
        next.push(next_unless(is_marked(looped, number), named))?;
    }
    Ok(next)
}

/// For each type the number at which the chain of names from it ends.
pub(crate) fn root_ends(
    alloc: Global,
    keys: &OwnKeys,
    looped: &[bool],
    entries: &[TypeEntry],
) -> Result<Vec<Option<usize>>, AllocError>
    requires keys { keys.now ≡ keys_of (map entry_shown entries.now) }
    requires rising { KeysRise (map entry_shown entries.now) }
    ensures { IfOk result (λ ends. AreRootEnds (map entry_shown entries.now) looped.now ends.items) }
{
    let next = next_named(alloc, keys, looped, entries)?;
    chain_ends(alloc, &next)
}

// The kind of what is defined as another package's type, or by a type that is no name.
fn root_kind(imported: &TypeTable, term: &TypeTerm) -> Kind
    ensures { result ≡ root_kind (find_entry imported.now) (shape term.now) }
{
    match term {
        TypeTerm::NoType => Kind::Nothing,
        TypeTerm::Defined(key) => imported.kind(key),
        TypeTerm::Pointer(_) => Kind::Pointer,
        TypeTerm::Error => Kind::Interface,
        TypeTerm::Interface(_, _) => Kind::Interface,
        TypeTerm::Basic(_) => Kind::Other,
        TypeTerm::Struct(_, _, _) => Kind::Other,
    }
}

// The kind of the type with a number.
fn kind_at(
    imported: &TypeTable,
    nothing: &[bool],
    entries: &[TypeEntry],
    ends: &[Option<usize>],
    number: usize,
) -> Kind
    ensures { result ≡ kind_at (find_entry imported.now) nothing.now (map entry_shown entries.now) ends.now number }
{
    if is_marked(nothing, number) {
        return Kind::Nothing;
    }
    match entries.get(root_at(ends, number)) {
        Some(entry) => root_kind(imported, &entry.term),
        None => Kind::Nothing,
    }
}

/// The kinds of the types of a package.
pub(crate) fn kinds_of(
    alloc: Global,
    imported: &TypeTable,
    nothing: &[bool],
    entries: &[TypeEntry],
    ends: &[Option<usize>],
) -> Result<Vec<Kind>, AllocError>
    ensures { IfOk result (λ kinds. IsTable kinds.items (length entries.now) (kind_at (find_entry imported.now) nothing.now (map entry_shown entries.now) ends.now)) }
{
    let mut kinds = Vec::with_capacity(alloc, entries.len())?;
    for number in 0..entries.len() {
        kinds.push(kind_at(imported, nothing, entries, ends, number))?;
    }
    Ok(kinds)
}
