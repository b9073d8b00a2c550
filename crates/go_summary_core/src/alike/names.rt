//! Equality of names, of what packages export, and of lists.
ghost use Rattle.std.specs.Prelude.{◌≡◌, ◌↔◌, IsTrue, map};
ghost use Rattle.go_declared_core.specs.block_core.Exports.{name_and_decl};

use go_declared_core::block_core::{Exports, NamedDecl};
use go_term_core::text_core::Name;

/// Whether two names are spelled alike.
fn is_same_name(one: &Name, other: &Name) -> bool
    ensures { IsTrue result ↔ (one.now ≡ other.now) }
{
    one.as_str() == other.as_str()
}

/// Whether two lists have the same names in order.
pub fn same_names(names: &[Name], others: &[Name]) -> bool
    ensures { IsTrue result ↔ (names.now ≡ others.now) }
{
    if names.len() != others.len() {
        return false;
    }
    for place in 0..names.len() {
        if !is_same_name(&names[place], &others[place]) {
            return false;
        }
    }
    true
}

/// Whether two names are spelled alike, and have the same declaration.
fn is_same_named(one: &NamedDecl, other: &NamedDecl) -> bool
    ensures { IsTrue result ↔ (name_and_decl one.now ≡ name_and_decl other.now) }
{
    is_same_name(&one.name, &other.name) && one.decl == other.decl
}

/// Whether two lists have the same names with the same declarations, in order.
fn same_decls(names: &[NamedDecl], others: &[NamedDecl]) -> bool
    ensures { IsTrue result ↔ (map name_and_decl names.now ≡ map name_and_decl others.now) }
{
    if names.len() != others.len() {
        return false;
    }
    for place in 0..names.len() {
        if !is_same_named(&names[place], &others[place]) {
            return false;
        }
    }
    true
}

/// Whether two packages have the same path, the same name in their clauses, and the same exported names with the same declarations.
pub fn same_exports(one: &Exports, other: &Exports) -> bool
    ensures { IsTrue result ↔ (one.now ≡ other.now) }
{
    one.path().is_same(other.path())
        && one.name().as_str() == other.name().as_str()
        && same_decls(one.names(), other.names())
}
