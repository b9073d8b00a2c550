//! Which aliases reach themselves.
ghost use Rattle.std.specs.Prelude.{◌≡◌, ◌&&◌, ◌++◌, IfOk, is_some, map, OnOk};
ghost use Rattle.go_type_core.specs.table_core.Shown.{entry_shown};
ghost use Rattle.go_type_core.specs.table_core.Tables.{AreOf, KeysRise};
ghost use Rattle.go_typexpr_core.specs.aliases.Aliases.{alias_in};
ghost use Rattle.go_typexpr_core.specs.aliases.Laws.{AreLoopedAliases};
ghost use Rattle.go_typexpr_core.specs.aliases.mirrors.Numbered.{marked_alias, marked_aliases};

use crate::aliases::targets::Aliases;
use go_path_core::ImportPath;
use go_term_core::decl_core::DeclRef;
use go_type_core::{TypeEntry, type_loops};
use std::alloc::{AllocError, Global};

// Whether an entry is marked and an alias.
fn is_marked_alias(aliases: &Aliases, is_marked: bool, entry: &TypeEntry) -> bool
    ensures { result ≡ (is_marked && is_some (alias_in aliases.now (entry_shown entry.now).key.decl)) }
{
    is_marked && aliases.has(entry.key.decl)
}

// Adds the declaration of an entry, if it is marked and an alias.
fn add_marked(
    aliases: &Aliases,
    is_marked: bool,
    entry: &TypeEntry,
    marked: &mut Vec<DeclRef>,
) -> Result<(), AllocError>
    ensures { OnOk result (marked.new.items ≡ marked.old.items ++ marked_alias aliases.now is_marked (entry_shown entry.now)) }
{
    if is_marked_alias(aliases, is_marked, entry) {
        marked.push(entry.key.decl)?;
    }
    Ok(())
}

// The declarations of those entries that are marked and aliases.
fn marked_aliases(
    alloc: Global,
    aliases: &Aliases,
    marks: &[bool],
    entries: &[TypeEntry],
) -> Result<Vec<DeclRef>, AllocError>
    ensures { IfOk result (λ marked. marked.items ≡ marked_aliases aliases.now marks.now (map entry_shown entries.now)) }
{
    let mut marked = Vec::new(alloc);
    for (is_marked, entry) in marks.iter().zip(entries) {
        add_marked(aliases, *is_marked, entry, &mut marked)?;
    }
    Ok(marked)
}

/// The aliases of the package of a path that reach themselves outside pointers and interfaces, in order: by what is written of its types and
/// its aliases, where the name of an alias means the alias itself. It takes time that is linear in what is written, but for look-ups.
///
/// # Errors
///
/// `AllocError` where memory is wanting.
pub fn alias_loops(
    alloc: Global,
    path: &ImportPath,
    aliases: &Aliases,
    written: &[TypeEntry],
) -> Result<Vec<DeclRef>, AllocError>
    requires own { AreOf path.now (map entry_shown written.now) }
    requires rising { KeysRise (map entry_shown written.now) }
    ensures { IfOk result (λ looped. AreLoopedAliases (map entry_shown written.now) aliases.now looped.items) }
{
    let marks = type_loops(alloc, path, written)?;
    marked_aliases(alloc, aliases, &marks, written)
}
