//! The types of a package from what is written of them.
ghost use Rattle.std.specs.Prelude.{◌≡◌, IfOk, length, map};
ghost use Rattle.go_table_core.specs.Entries.{find_entry};
ghost use Rattle.go_table_core.specs.Shown.{entry_shown};
ghost use Rattle.go_table_core.specs.Tables.{AreOf, KeysRise};
ghost use Rattle.go_type_core.specs.Built.{AreLoopedEntries, IsBuilt};
ghost use Rattle.go_type_core.specs.mirrors.Making.{IsMade, marked_faults};
ghost use Rattle.go_type_core.specs.mirrors.Numbers.{keys_of};

use crate::looped::looped_types;
use crate::nothing::nothing_types;
use crate::own_keys::OwnKeys;
use crate::roots::{kinds_of, root_ends};
use crate::settled::settled_types;
use go_table_core::path_core::ImportPath;
use go_table_core::{DefinedType, PackageTypes, TypeEntry, TypeTable};
use go_term_core::text_core::Rule;
use std::alloc::{AllocError, Global};

/// A type that reaches itself outside pointers and interfaces.
#[derive(Clone, Copy, Debug, PartialEq, Eq)]
pub struct TypeFault {
    /// Its place in the list of the package's types, from 0.
    pub entry: usize,
    /// Y1.
    pub rule: Rule,
}

// The faults of marked types.
fn marked_faults(alloc: Global, looped: &[bool]) -> Result<Vec<TypeFault>, AllocError>
    ensures { IfOk result (λ faults. faults.items ≡ marked_faults 0 looped.now) }
{
    let mut faults = Vec::new(alloc);
    for (entry, is_looped) in looped.iter().enumerate() {
        if *is_looped {
            let rule = Rule::Y1;
            faults.push(TypeFault { entry, rule })?;
        }
    }
    Ok(faults)
}

// The types of a package, from those that reach themselves.
fn made_types(
    alloc: Global,
    keys: &OwnKeys,
    looped: &[bool],
    entries: &[TypeEntry],
    imported: &TypeTable,
) -> Result<Vec<DefinedType>, AllocError>
    requires keys { keys.now ≡ keys_of (map entry_shown entries.now) }
    requires rising { KeysRise (map entry_shown entries.now) }
    requires looped { AreLoopedEntries (map entry_shown entries.now) looped.now }
    ensures { IfOk result (λ types. IsMade (length entries.now) (map entry_shown entries.now) (find_entry imported.now) keys.now looped.now types.items) }
{
    let nothing = nothing_types(alloc, imported, keys, looped, entries)?;
    let ends = root_ends(alloc, keys, looped, entries)?;
    let kinds = kinds_of(alloc, imported, &nothing, entries, &ends)?;
    settled_types(alloc, keys, &kinds, imported, &nothing, &ends, entries)
}

/// The types of the package of a path, from what is written of them, in order of file and place, and from the types of the packages that it
/// imports; and the faults of types that reach themselves outside pointers and interfaces, in order. It takes time that is linear in what
/// is written, but for look-ups. The Go specification, "Type declarations", "Underlying types", "Method declarations".
///
/// # Errors
///
/// `AllocError` where memory is wanting.
pub fn build_types(
    alloc: Global,
    path: ImportPath,
    entries: &[TypeEntry],
    imported: &TypeTable,
) -> Result<(PackageTypes, Vec<TypeFault>), AllocError>
    requires own { AreOf path (map entry_shown entries.now) }
    requires rising { KeysRise (map entry_shown entries.now) }
    ensures path { IfOk result (λ r. r.0.path ≡ path) }
    ensures types { IfOk result (λ r. IsBuilt (find_entry imported.now) (map entry_shown entries.now) r.0.entries r.1.items) }
{
    // For what it tells of the table: underlying types are no names.
    let _plain = imported.len();
    let keys = OwnKeys::of(alloc, &path, entries)?;
    let looped = looped_types(alloc, &keys, entries)?;
    let faults = marked_faults(alloc, &looped)?;
    let types = made_types(alloc, &keys, &looped, entries, imported)?;
    Ok((PackageTypes::new(alloc, path, types)?, faults))
}
