//! Aliases as they are written, in order of file and number.
ghost use Rattle.std.specs.Prelude.{◌≡◌, ◌↔◌, ◌≤◌, false, IfOk, IsTrue, length, map, slice_get, Some, true};
ghost use Rattle.std.specs.List.Sorted.{IsPartitionPoint};
ghost use Rattle.go_term_core.specs.Shapes.{shape};
ghost use Rattle.go_term_core.specs.decl_core.Order.{is_ref_before};
ghost use Rattle.go_typexpr_core.specs.aliases.Aliases.{decls_of, DeclsRise};
ghost use Rattle.go_typexpr_core.specs.aliases.Shown.{alias_shown};
ghost use Rattle.go_typexpr_core.specs.aliases.mirrors.Numbered.{decl_number, named_number, nexts, own_number};

use go_path_core::ImportPath;
use go_term_core::TypeTerm;
use go_term_core::decl_core::{DeclKey, DeclRef};
use std::alloc::{AllocError, Global};

/// An alias as it is written.
pub struct Alias {
    pub decl: DeclRef,
    /// What the name behind its `=` means, where the name of an alias means the alias itself.
    pub term: TypeTerm,
}

impl Drop for Alias {
    fn drop(self) {
        let Alias { decl: _, term: _ } = self;
    }
}

// How many aliases stand before a declaration.
fn count_before(aliases: &[Alias], decl: DeclRef) -> usize
    requires { DeclsRise (decls_of (map alias_shown aliases.now)) }
    ensures bound { result ≤ length aliases.now }
    ensures split { IsPartitionPoint (λ a. is_ref_before a.decl decl ≡ true) (λ a. is_ref_before a.decl decl ≡ false) aliases.now result }
{
    aliases.partition_point(
        |other: &Alias| -> bool
            ensures { result ≡ is_ref_before other.now.decl decl }
        { other.decl.is_before(decl) },
    )
}

// The declaration of the alias at a place, or none past the end.
fn decl_at(aliases: &[Alias], place: usize) -> Option<DeclRef>
    ensures { result ≡ slice_get (decls_of (map alias_shown aliases.now)) place }
{
    match aliases.get(place) {
        Some(alias) => Some(alias.decl),
        None => None,
    }
}

// Whether two are the same declaration of a package.
fn is_same_decl(a: DeclRef, b: DeclRef) -> bool
    ensures { IsTrue result ↔ (a ≡ b) }
{
    a == b
}

// Whether the alias at a place is a declaration.
fn is_at(aliases: &[Alias], place: usize, decl: DeclRef) -> bool
    ensures { IsTrue result ↔ (slice_get (decls_of (map alias_shown aliases.now)) place ≡ Some decl) }
{
    match decl_at(aliases, place) {
        Some(other) => is_same_decl(other, decl),
        None => false,
    }
}

/// The number of a declaration among aliases, or none where it is none of them.
pub(crate) fn number(aliases: &[Alias], decl: DeclRef) -> Option<usize>
    requires { DeclsRise (decls_of (map alias_shown aliases.now)) }
    ensures { result ≡ decl_number (decls_of (map alias_shown aliases.now)) decl }
{
    let place = count_before(aliases, decl);
    if is_at(aliases, place, decl) {
        Some(place)
    } else {
        None
    }
}

// The same of any declaration, where they are the aliases of the package of a path.
fn own_number(path: &ImportPath, aliases: &[Alias], key: &DeclKey) -> Option<usize>
    requires { DeclsRise (decls_of (map alias_shown aliases.now)) }
    ensures { result ≡ own_number path.now (decls_of (map alias_shown aliases.now)) key.now }
{
    if path.is_same(&key.path) {
        number(aliases, key.decl)
    } else {
        None
    }
}

// The number of the alias that a type names.
fn named_number(path: &ImportPath, aliases: &[Alias], term: &TypeTerm) -> Option<usize>
    requires { DeclsRise (decls_of (map alias_shown aliases.now)) }
    ensures { result ≡ named_number path.now (decls_of (map alias_shown aliases.now)) (shape term.now) }
{
    match term {
        TypeTerm::Defined(key) => own_number(path, aliases, key),
        TypeTerm::NoType => None,
        TypeTerm::Basic(_) => None,
        TypeTerm::Error => None,
        TypeTerm::Pointer(_) => None,
        TypeTerm::Struct(_, _, _) => None,
        TypeTerm::Interface(_, _) => None,
    }
}

/// Of each alias of the package of a path the number of the one that it names, or none where it names no alias.
pub(crate) fn next_aliases(
    alloc: Global,
    path: &ImportPath,
    aliases: &[Alias],
) -> Result<Vec<Option<usize>>, AllocError>
    requires { DeclsRise (decls_of (map alias_shown aliases.now)) }
    ensures { IfOk result (λ next. next.items ≡ nexts path.now (map alias_shown aliases.now)) }
{
    let mut next = Vec::with_capacity(alloc, aliases.len())?;
    for alias in aliases {
        next.push(named_number(path, aliases, &alias.term))?;
    }
    Ok(next)
}
