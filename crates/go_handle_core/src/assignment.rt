//! Which values are assignable to variables of a type.
ghost use Rattle.std.specs.Prelude.{◌≡◌, ◌&&◌, not, true, false, MatchOption, IfOk};
ghost use Rattle.go_term_core.specs.Shapes.{shape};
ghost use Rattle.go_table_core.specs.Entries.{find_entry, underlying_in};
ghost use Rattle.go_table_core.specs.Assign.{AValue, is_named};
ghost use Rattle.go_handle_core.specs.deciding.Identity.{identical_under_of};
ghost use Rattle.go_handle_core.specs.deciding.Assigning.{is_interface, value_fits, assignable_of};
ghost use Rattle.go_handle_core.specs.deciding.Implementing.{implements_of};

use crate::conversion::is_type;
use crate::identity::{is_identical, is_identical_under};
use crate::implementing::is_implementing;
use crate::types::TypeRef;
use go_table_core::{TypeTable, is_named_type};
use go_term_core::TypeTerm;
use go_term_core::settling::{Kind, kind_of};
use std::alloc::{AllocError, Global};

// Whether a type is a name, declared or predeclared.
fn is_named(t: &TypeRef<'_>) -> bool
    ensures { result ≡ is_named t.now }
{
    t.stars == 0 && is_named_type(t.term)
}

// An interface type, be it named or not; none where a type is another.
fn interface<'a>(table: &'a TypeTable, t: &TypeRef<'a>) -> Option<&'a TypeTerm>
    ensures { MatchOption result (is_interface (underlying_in (find_entry table.now) t.now) ≡ false) (λ i. (shape i.now ≡ t.now) × (is_interface (underlying_in (find_entry table.now) t.now) ≡ true)) }
{
    if t.stars > 0 {
        return None;
    }
    if kind_of(table.underlying(t.term)) == Kind::Interface {
        return Some(t.term);
    }
    None
}

// Whether two types have identical underlying types, and one of the two is not named.
fn are_alike_unnamed<'a>(table: &'a TypeTable, a: &TypeRef<'a>, b: &TypeRef<'a>) -> bool
    ensures { result ≡ identical_under_of true (underlying_in (find_entry table.now) a.now) (underlying_in (find_entry table.now) b.now) && not (is_named a.now && is_named b.now) }
{
    is_identical_under(true, &a.underlying(table), &b.underlying(table))
        && !(is_named(a) && is_named(b))
}

// Whether a value of a type fits a variable of another, where both are types.
fn fits<'a>(
    alloc: Global,
    table: &'a TypeTable,
    value: &TypeRef<'a>,
    variable: &TypeRef<'a>,
) -> Result<bool, AllocError>
    ensures { IfOk result (λ taken. taken ≡ value_fits (find_entry table.now) value.now variable.now (implements_of table.now value.now variable.now)) }
{
    if is_identical(value, variable) {
        return Ok(true);
    }
    if are_alike_unnamed(table, value, variable) {
        return Ok(true);
    }
    match interface(table, variable) {
        Some(term) => is_implementing(alloc, table, value, term),
        None => Ok(false),
    }
}

/// Whether a value of a type is assignable to a variable of another.
///
/// The Go specification, "Assignability".
///
/// # Errors
///
/// `AllocError` where memory is wanting for a search among methods.
pub fn is_assignable<'a>(
    alloc: Global,
    table: &'a TypeTable,
    value: &TypeRef<'a>,
    variable: &TypeRef<'a>,
) -> Result<bool, AllocError>
    ensures { IfOk result (λ taken. taken ≡ assignable_of table.now (AValue value.now) variable.now) }
{
    if !is_type(table, variable) {
        return Ok(false);
    }
    if !is_type(table, value) {
        return Ok(false);
    }
    fits(alloc, table, value, variable)
}
