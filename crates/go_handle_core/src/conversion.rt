//! Which types are convertible to one another.
ghost use Rattle.std.specs.Prelude.{◌≡◌};
ghost use Rattle.go_table_core.specs.Entries.{find_entry};
ghost use Rattle.go_term_core.specs.Terms.{is_no_type};
ghost use Rattle.go_handle_core.specs.deciding.Conversion.{is_type_term, are_alike, pointers_alike, convertible_of};

use crate::identity::is_identical_under;
use crate::types::TypeRef;
use go_table_core::TypeTable;
use go_term_core::settling::{Kind, kind_of};

// Whether it is no type.
fn is_nothing(t: &TypeRef<'_>) -> bool
    ensures { result ≡ is_no_type t.now }
{
    t.stars == 0 && kind_of(t.term) == Kind::Nothing
}

/// Whether what lies under a type is one, in a table. It takes no memory.
pub fn is_type<'a>(table: &'a TypeTable, t: &TypeRef<'a>) -> bool
    ensures { result ≡ is_type_term (find_entry table.now) t.now }
{
    !is_nothing(&t.underlying(table))
}

// Whether what lies under a type is one, and identical but for tags to what lies under another.
fn are_alike<'a>(table: &'a TypeTable, a: &TypeRef<'a>, b: &TypeRef<'a>) -> bool
    ensures { result ≡ are_alike (find_entry table.now) a.now b.now }
{
    is_type(table, a) && is_identical_under(false, &a.underlying(table), &b.underlying(table))
}

// Whether two types are pointer types as they are written, and what lies under those they point to is alike but for tags.
fn are_pointers_alike<'a>(table: &'a TypeTable, a: &TypeRef<'a>, b: &TypeRef<'a>) -> bool
    ensures { result ≡ pointers_alike (find_entry table.now) a.now b.now }
{
    match (a.base(), b.base()) {
        (Some(a), Some(b)) => are_alike(table, &a, &b),
        (None, _) | (Some(_), None) => false,
    }
}

/// Whether a value of a type is convertible to another, where it is not assignable to it and no integer that becomes a string. It takes
/// no memory.
///
/// The Go specification, "Conversions".
pub fn is_convertible<'a>(table: &'a TypeTable, value: &TypeRef<'a>, to: &TypeRef<'a>) -> bool
    ensures { result ≡ convertible_of (find_entry table.now) value.now to.now }
{
    are_alike(table, value, to) || are_pointers_alike(table, value, to)
}
