//! Which types implement an interface type.
ghost use Rattle.std.specs.Prelude.{◌≡◌, IfOk};
ghost use Rattle.go_term_core.specs.Shapes.{shape};
ghost use Rattle.go_term_core.specs.Terms.{PointerTo};
ghost use Rattle.go_handle_core.specs.deciding.Implementing.{implements_of};
ghost use Rattle.go_handle_core.specs.mirrors.Bare.{asks_nothing};

use crate::types::TypeRef;
use go_mset_core::{implements, implements_by_pointer};
use go_table_core::TypeTable;
use go_term_core::TypeTerm;
use std::alloc::{AllocError, Global};

// Whether an underlying type asks for no method.
fn asks_nothing(term: &TypeTerm) -> bool
    ensures { result ≡ asks_nothing (shape term.now) }
{
    match term {
        TypeTerm::Error => false,
        TypeTerm::Interface(_, methods) => methods.len() == 0,
        TypeTerm::NoType
        | TypeTerm::Basic(_)
        | TypeTerm::Defined(_)
        | TypeTerm::Pointer(_)
        | TypeTerm::Struct(_, _, _) => true,
    }
}

// Whether a type implements an interface type.
fn term_implements<'a>(
    alloc: Global,
    table: &'a TypeTable,
    term: &'a TypeTerm,
    interface: &'a TypeTerm,
) -> Result<bool, AllocError>
    ensures { IfOk result (λ has. has ≡ implements_of table.now (shape term.now) (shape interface.now)) }
{
    match implements(alloc, table, term, interface)? {
        Ok(()) => Ok(true),
        Err(_) => Ok(false),
    }
}

// Whether a pointer to a type implements an interface type.
fn pointer_implements<'a>(
    alloc: Global,
    table: &'a TypeTable,
    base: &'a TypeTerm,
    interface: &'a TypeTerm,
) -> Result<bool, AllocError>
    ensures { IfOk result (λ has. has ≡ implements_of table.now (PointerTo (shape base.now)) (shape interface.now)) }
{
    match implements_by_pointer(alloc, table, base, interface)? {
        Ok(()) => Ok(true),
        Err(_) => Ok(false),
    }
}

/// Whether a type implements an interface type. A pointer to a pointer has no methods.
///
/// The Go specification, "Implementing an interface".
///
/// # Errors
///
/// `AllocError` where memory is wanting.
pub fn is_implementing<'a>(
    alloc: Global,
    table: &'a TypeTable,
    value: &TypeRef<'a>,
    interface: &'a TypeTerm,
) -> Result<bool, AllocError>
    ensures { IfOk result (λ has. has ≡ implements_of table.now value.now (shape interface.now)) }
{
    if value.stars == 0 {
        return term_implements(alloc, table, value.term, interface);
    }
    if value.stars == 1 {
        return pointer_implements(alloc, table, value.term, interface);
    }
    Ok(asks_nothing(table.underlying(interface)))
}
