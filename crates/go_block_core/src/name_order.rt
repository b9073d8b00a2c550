//! The order in which exported names are looked for.
ghost use Rattle.std.specs.Prelude.{◌≡◌, ◌≤◌, IfOk, map, length, true, false, slice_get};
ghost use Rattle.std.specs.List.Sorted.{IsPartitionPoint};
ghost use Rattle.go_block_core.specs.Exports.{name_and_decl};
ghost use Rattle.go_block_core.specs.Tables.{in_block};
ghost use Rattle.go_block_core.specs.mirrors.Orders.{by_spelling, decl_if, HasPlaces, is_below, IsNameOrder, spelling_at};

use crate::exports::NamedDecl;
use go_decl_core::DeclRef;
use std::alloc::{AllocError, Global};
use std::cmp::Ordering;

/// The spelling of the name at a place, and nothing past the end.
fn spelling_at(names: &[NamedDecl], place: usize) -> &str
    ensures { result.now ≡ spelling_at (map name_and_decl names.now) place }
{
    match names.get(place) {
        Some(named) => named.name.as_str(),
        None => "",
    }
}

/// The order of places: by the spellings of their names, then by number.
fn by_spelling(names: &[NamedDecl], one: usize, other: usize) -> Ordering
    ensures { result ≡ by_spelling (map name_and_decl names.now) one other }
{
    spelling_at(names, one)
        .cmp(spelling_at(names, other))
        .then(one.cmp(&other))
}

/// Whether the name at a place is spelled before another.
fn is_below(names: &[NamedDecl], name: &str, place: usize) -> bool
    ensures { result ≡ is_below (map name_and_decl names.now) name.now place }
{
    spelling_at(names, place).cmp(name).is_lt()
}

/// The numbers below a count.
fn places(alloc: Global, count: usize) -> Result<Vec<usize>, AllocError>
    ensures { IfOk result (λ places. HasPlaces count places.items) }
{
    let mut places = Vec::with_capacity(alloc, count)?;
    for place in 0..count {
        places.push(place)?;
    }
    Ok(places)
}

/// The places of names, in order of spelling.
pub(crate) fn order_of(alloc: Global, names: &[NamedDecl]) -> Result<Vec<usize>, AllocError>
    ensures { IfOk result (λ order. IsNameOrder (map name_and_decl names.now) order.items) }
{
    let mut order = places(alloc, names.len())?;
    order.sort_unstable_by(
        |one: &usize, other: &usize| -> Ordering
            ensures { result ≡ by_spelling (map name_and_decl names.entry.now) one.now other.now }
        { by_spelling(names, *one, *other) },
    );
    Ok(order)
}

/// How many of the places in order have names that are spelled before another.
fn count_below(names: &[NamedDecl], order: &[usize], name: &str) -> usize
    requires { IsNameOrder (map name_and_decl names.now) order.now }
    ensures bound { result ≤ length order.now }
    ensures split { IsPartitionPoint (λ i. is_below (map name_and_decl names.now) name.now i ≡ true) (λ i. is_below (map name_and_decl names.now) name.now i ≡ false) order.now result }
{
    order.partition_point(
        |place: &usize| -> bool
            ensures { result ≡ is_below (map name_and_decl names.entry.now) name.entry.now place.now }
        { is_below(names, name, *place) },
    )
}

/// The declaration at a place, where its name is this.
fn decl_at(names: &[NamedDecl], place: usize, name: &str) -> Option<DeclRef>
    ensures { result ≡ decl_if (slice_get (map name_and_decl names.now) place) name.now }
{
    match names.get(place) {
        Some(named) => {
            if name == named.name.as_str() {
                Some(named.decl)
            } else {
                None
            }
        }
        None => None,
    }
}

/// The declaration of a name among names whose places are in order.
pub(crate) fn decl_of(names: &[NamedDecl], order: &[usize], name: &str) -> Option<DeclRef>
    requires { IsNameOrder (map name_and_decl names.now) order.now }
    ensures { result ≡ in_block (map name_and_decl names.now) name.now }
{
    let first = count_below(names, order, name);
    match order.get(first) {
        Some(place) => decl_at(names, *place, name),
        None => None,
    }
}
