//! Equality of defined types.
ghost use Rattle.std.specs.Prelude.{◌≡◌, ◌↔◌, IsTrue, map};
ghost use Rattle.go_table_core.specs.Shown.{member_shown};

use crate::alike::terms::{equal_signature, equal_term};
use go_table_core::{DeclaredMethod, DefinedType, PackageTypes};

/// Whether two methods have the same name, the same place, the same receiver and the same signature.
fn is_same_member(one: &DeclaredMethod, other: &DeclaredMethod) -> bool
    ensures { IsTrue result ↔ (member_shown one.now ≡ member_shown other.now) }
{
    one.name.as_str() == other.name.as_str()
        && one.place == other.place
        && one.pointer == other.pointer
        && equal_signature(&one.signature, &other.signature)
}

/// Whether two lists have the same methods in order.
fn same_members(methods: &[DeclaredMethod], others: &[DeclaredMethod]) -> bool
    ensures { IsTrue result ↔ (map member_shown methods.now ≡ map member_shown others.now) }
{
    if methods.len() != others.len() {
        return false;
    }
    for place in 0..methods.len() {
        if !is_same_member(&methods[place], &others[place]) {
            return false;
        }
    }
    true
}

/// Whether two types have the same key, the same name, the same underlying type and the same methods.
fn is_same_entry(one: &DefinedType, other: &DefinedType) -> bool
    ensures { IsTrue result ↔ (one.now ≡ other.now) }
{
    one.key().is_same(other.key())
        && one.name().as_str() == other.name().as_str()
        && equal_term(one.underlying(), other.underlying())
        && same_members(one.methods(), other.methods())
}

/// Whether two lists have the same types in order.
fn same_entries(types: &[DefinedType], others: &[DefinedType]) -> bool
    ensures { IsTrue result ↔ (types.now ≡ others.now) }
{
    if types.len() != others.len() {
        return false;
    }
    for place in 0..types.len() {
        if !is_same_entry(&types[place], &others[place]) {
            return false;
        }
    }
    true
}

/// Whether two packages have the same path and the same types.
pub fn same_types(one: &PackageTypes, other: &PackageTypes) -> bool
    ensures { IsTrue result ↔ (one.now ≡ other.now) }
{
    one.path().is_same(other.path()) && same_entries(one.types(), other.types())
}
