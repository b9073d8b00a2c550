//! The numbers of a package's types by their keys.
ghost use Rattle.std.specs.Prelude.{◌≡◌, ◌↔◌, ◌≤◌, false, IfOk, IsTrue, length, map, slice_get, true};
ghost use Rattle.std.specs.List.Sorted.{IsPartitionPoint};
ghost use Rattle.go_table_core.specs.Shown.{entry_shown};
ghost use Rattle.go_table_core.specs.Tables.{AreOf, KeysRise};
ghost use Rattle.go_type_core.specs.mirrors.Numbers.{keys_in, keys_of, number_of, RefsRise};
ghost use Rattle.go_term_core.specs.decl_core.Order.{is_ref_before};

use go_table_core::TypeEntry;
use go_table_core::path_core::ImportPath;
use go_term_core::decl_core::{DeclKey, DeclRef};
use std::alloc::{AllocError, Global};
use std::marker::Model;

/// The keys of the types of a package, in order of file and place. Contracts see the list of keys.
#[derive(Drop)]
pub(crate) struct OwnKeys {
    path: ImportPath,
    decls: Vec<DeclRef>,
}

impl Model for OwnKeys {
    ghost use Rattle.std.specs.Prelude.{List};
    ghost use Rattle.go_term_core.specs.decl_core.declared.keys.DeclKey.{DeclKey as TheKey};
    ghost use Rattle.go_type_core.specs.mirrors.Numbers.{keys_in, RefsRise};

    ghost Value = { List TheKey };

    ghost view = { λ o. keys_in o.path o.decls.items };

    ghost invariant = { λ o. RefsRise o.decls.items };
}

// How many declarations stand before one.
fn count_before(decls: &[DeclRef], decl: DeclRef) -> usize
    requires { RefsRise decls.now }
    ensures bound { result ≤ length decls.now }
    ensures split { IsPartitionPoint (λ d. is_ref_before d decl ≡ true) (λ d. is_ref_before d decl ≡ false) decls.now result }
{
    decls.partition_point(
        |other: &DeclRef| -> bool
            ensures { result ≡ is_ref_before other.now decl }
        { other.is_before(decl) },
    )
}

// The declaration at a place, or none past the end.
fn decl_at(decls: &[DeclRef], place: usize) -> Option<DeclRef>
    ensures { result ≡ slice_get decls.now place }
{
    decls.get(place).copied()
}

// Whether two are the same declaration of a package.
fn is_same_decl(a: DeclRef, b: DeclRef) -> bool
    ensures { IsTrue result ↔ (a ≡ b) }
{
    a == b
}

// Whether a declaration stands at a place.
fn is_at(decls: &[DeclRef], place: usize, decl: DeclRef) -> bool
    ensures { IsTrue result ↔ (slice_get decls.now place ≡ Some decl) }
{
    match decl_at(decls, place) {
        Some(other) => is_same_decl(other, decl),
        None => false,
    }
}

// The declarations of types.
fn decls_of(alloc: Global, entries: &[TypeEntry]) -> Result<Vec<DeclRef>, AllocError>
    ensures { IfOk result (λ decls. decls.items ≡ map (λ e. e.key.decl) entries.now) }
{
    let mut decls = Vec::with_capacity(alloc, entries.len())?;
    for entry in entries {
        decls.push(entry.key.decl)?;
    }
    Ok(decls)
}

impl OwnKeys {
    // The keys of these declarations.
    fn with(path: ImportPath, decls: Vec<DeclRef>) -> OwnKeys
        requires { RefsRise decls.items }
        ensures { result ≡ keys_in path decls.items }
    {
        OwnKeys { path, decls }
    }

    /// The keys of the types of the package of a path.
    pub(crate) fn of(
        alloc: Global,
        path: &ImportPath,
        entries: &[TypeEntry],
    ) -> Result<OwnKeys, AllocError>
        requires own { AreOf path.now (map entry_shown entries.now) }
        requires rising { KeysRise (map entry_shown entries.now) }
        ensures { IfOk result (λ keys. keys ≡ keys_of (map entry_shown entries.now)) }
    {
        let decls = decls_of(alloc, entries)?;
        let path = path.share()?;
        Ok(OwnKeys::with(path, decls))
    }

    /// The number of a key among the keys, or none where it is none of them.
    pub(crate) fn number(&self, key: &DeclKey) -> Option<usize>
        ensures { result ≡ number_of self.now key.now }
    {
        let place = count_before(&self.decls, key.decl);
        if is_at(&self.decls, place, key.decl) && self.path.is_same(&key.path) {
            Some(place)
        } else {
            None
        }
    }
}
