//! Entries of an outline.
ghost use Rattle.std.specs.Prelude.{◌≡◌, ◌++◌, [], ◌∷◌, OnOk, map};
ghost use Rattle.go_tree_nodes.specs.TypeShapes.{shape_idents};
ghost use Rattle.go_reference_core.specs.outline.Outlines.{entry, entry_shown, idents_entries};

use go_path_core::text_core::add;
use go_tree_nodes::{Ident, Idents};
use std::alloc::AllocError;

/// What a declared name is.
#[derive(Clone, Copy, Debug, PartialEq, Eq)]
pub enum EntryKind {
    Constant,
    Variable,
    Function,
    /// A function with a receiver, or a method of an interface type.
    Method,
    /// A type that is written as a struct type.
    Struct,
    /// A type that is written as an interface type.
    Interface,
    /// Another type.
    Named,
    Field,
}

/// A declared name, with the part of the text that its declaration takes. Offsets count bytes from the file's start.
#[derive(Clone, Copy)]
pub struct Entry<'t> {
    pub ident: &'t Ident,
    pub kind: EntryKind,
    /// Whether it is a field or a method of the type that the last entry before it declares which is none.
    pub is_member: bool,
    /// The offset of the first byte of the declaration: of its keyword where it stands alone, else of the first name of its line.
    pub start: usize,
    /// The offset after the last byte of the declaration.
    pub end: usize,
    /// The offset after its head: of a function before its body, of another declaration its end.
    pub head_end: usize,
}

/// The part of a text that a declaration takes.
#[derive(Clone, Copy)]
pub(crate) struct Extent {
    pub(crate) start: usize,
    pub(crate) end: usize,
}

/// Adds an entry.
pub(crate) fn put<'t>(entries: &mut Vec<Entry<'t>>, entry: Entry<'t>) -> Result<(), AllocError>
    ensures { OnOk result (map entry_shown entries.new.items ≡ map entry_shown entries.old.items ++ entry_shown entry.entry ∷ []) }
{
    add(entries, entry)
}

/// The entry of a name whose head is its whole declaration.
pub(crate) fn named<'t>(
    ident: &'t Ident,
    kind: EntryKind,
    is_member: bool,
    part: Extent,
) -> Entry<'t>
    ensures { entry_shown result ≡ entry ident.now kind is_member part.start part.end part.end }
{
    Entry {
        ident,
        kind,
        is_member,
        start: part.start,
        end: part.end,
        head_end: part.end,
    }
}

/// Adds the names of a list, of a declaration that takes a part.
pub(crate) fn add_names<'t>(
    entries: &mut Vec<Entry<'t>>,
    idents: &'t Idents,
    kind: EntryKind,
    is_member: bool,
    part: Extent,
) -> Result<(), AllocError>
    ensures { OnOk result (map entry_shown entries.new.items ≡ map entry_shown entries.old.items ++ idents_entries kind is_member part.start part.end (shape_idents idents.now)) }
{
    put(entries, named(&idents.first, kind, is_member, part))?;
    for next in &idents.more {
        put(entries, named(&next.ident, kind, is_member, part))?;
    }
    Ok(())
}
