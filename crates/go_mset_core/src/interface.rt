//! Which types implement an interface type.
ghost use Rattle.std.specs.Prelude.{◌≡◌, ◌↔◌, IfOk, IsTrue};
ghost use Rattle.go_select_core.specs.table_core.Entries.{find_entry};
ghost use Rattle.go_term_core.specs.Terms.{PointerTo, ErrorType, InterfaceOf};
ghost use Rattle.go_term_core.specs.Shapes.{shape, sign_of, method_shapes};
ghost use Rattle.go_select_core.specs.levels.Selectors.{IsSelectorAnswer};
ghost use Rattle.go_mset_core.specs.Implementing.{HasMethod, IsImplementsAnswer, IsImplementing};
ghost use Rattle.go_mset_core.specs.mirrors.Asking.{holder_shown, sign_wanted, text_shown, IsBefore, IsNextMissing, IsLeastMissing};

use crate::wanted::{Wanted, is_wanted};
use go_path_core::ImportPath;
use go_path_core::text_core::Rule;
use go_select_core::type_core::{Method, TypeTable, TypeTerm};
use go_select_core::{Selected, select, select_behind_pointer};
use std::alloc::{AllocError, Global};
use std::cmp::Ordering;

/// A method of an interface type that a type has not: its method set has none of the identifier, or one with another signature.
#[derive(Clone, Copy, Debug, PartialEq, Eq)]
pub struct Missing<'a> {
    pub name: &'a str,
}

/// A type whose methods are asked for.
#[derive(Clone, Copy)]
enum Holder<'a> {
    Of(&'a TypeTerm),
    PointerTo(&'a TypeTerm),
}

// Whether memory was wanting.
fn is_memory(rule: Rule) -> bool
    ensures { IsTrue result ↔ (rule ≡ Rule.M0) }
{
    rule == Rule::M0
}

// What a selector denotes behind an operand of a type.
fn selected<'a>(
    alloc: Global,
    table: &'a TypeTable,
    holder: Holder<'a>,
    name: &str,
    from: &ImportPath,
) -> Result<Selected<'a>, Rule>
    ensures { IsSelectorAnswer (find_entry table.now) (holder_shown holder.entry) name.now from.now result }
{
    match holder {
        Holder::Of(term) => select(alloc, table, term, name, from),
        Holder::PointerTo(base) => select_behind_pointer(alloc, table, base, name, from),
    }
}

// Whether a type has a method of an identifier, which is written in a package, with a signature.
fn has_method<'a>(
    alloc: Global,
    table: &'a TypeTable,
    holder: Holder<'a>,
    name: &str,
    from: &ImportPath,
    wanted: Wanted<'_>,
) -> Result<bool, AllocError>
    ensures { IfOk result (λ has. IsTrue has ↔ HasMethod (find_entry table.now) (holder_shown holder.entry) name.now from.now (sign_wanted wanted.entry)) }
{
    match selected(alloc, table, holder, name, from) {
        Ok(found) => Ok(is_wanted(found.member, found.through_pointer, wanted)),
        Err(rule) => {
            if is_memory(rule) {
                return Err(AllocError);
            }
            Ok(false)
        }
    }
}

// Whether a name stands before the one that is missing so far.
fn is_before(name: &str, missing: Option<&str>) -> bool
    ensures { IsTrue result ↔ IsBefore name.now (text_shown missing.entry) }
{
    match missing {
        Some(first) => name.cmp(first) == Ordering::Less,
        None => true,
    }
}

// The name of the method that is missing first, of those before and one more.
fn next_missing<'a>(
    alloc: Global,
    table: &'a TypeTable,
    holder: Holder<'a>,
    path: &ImportPath,
    missing: Option<&'a str>,
    method: &'a Method,
) -> Result<Option<&'a str>, AllocError>
    ensures { IfOk result (λ next. IsNextMissing (find_entry table.now) (holder_shown holder.entry) path.now (text_shown missing.entry) method.now.name (sign_of method.now.signature) (text_shown next)) }
{
    let name = method.name.as_str();
    if !is_before(name, missing) {
        return Ok(missing);
    }
    if has_method(
        alloc,
        table,
        holder,
        name,
        path,
        Wanted::Signature(&method.signature),
    )? {
        return Ok(missing);
    }
    Ok(Some(name))
}

// The name of the method that is missing first of those of an interface type, which is written in a package.
fn first_missing<'a>(
    alloc: Global,
    table: &'a TypeTable,
    holder: Holder<'a>,
    path: &ImportPath,
    methods: &'a [Method],
) -> Result<Option<&'a str>, AllocError>
    ensures { IfOk result (λ missing. IsLeastMissing (find_entry table.now) (holder_shown holder.entry) path.now (method_shapes methods.now) (text_shown missing)) }
{
    let mut missing: Option<&'a str> = None;
    'methods: for method in methods {
        missing = next_missing(alloc, table, holder, path, missing, method)?;
    }
    Ok(missing)
}

// Whether a type has each method of an interface type that is written in a package.
fn has_all<'a>(
    alloc: Global,
    table: &'a TypeTable,
    holder: Holder<'a>,
    path: &ImportPath,
    methods: &'a [Method],
) -> Result<Result<(), Missing<'a>>, AllocError>
    ensures { IfOk result (λ answer. IsImplementsAnswer (find_entry table.now) (holder_shown holder.entry) (InterfaceOf path.now (method_shapes methods.now)) answer) }
{
    match first_missing(alloc, table, holder, path, methods)? {
        Some(name) => Ok(Err(Missing { name })),
        None => Ok(Ok(())),
    }
}

// Whether a type has the method of `error`. An exported identifier is the same in each package: `errors` is one of them.
fn has_error<'a>(
    alloc: Global,
    table: &'a TypeTable,
    holder: Holder<'a>,
) -> Result<Result<(), Missing<'a>>, AllocError>
    ensures { IfOk result (λ answer. IsImplementsAnswer (find_entry table.now) (holder_shown holder.entry) ErrorType answer) }
{
    let from = match ImportPath::read(alloc, "errors") {
        Ok(from) => from,
        Err(_) => return Err(AllocError),
    };
    if has_method(alloc, table, holder, "Error", &from, Wanted::OfError)? {
        return Ok(Ok(()));
    }
    Ok(Err(Missing { name: "Error" }))
}

// Whether a type implements an interface type.
fn holder_implements<'a>(
    alloc: Global,
    table: &'a TypeTable,
    holder: Holder<'a>,
    interface: &'a TypeTerm,
) -> Result<Result<(), Missing<'a>>, AllocError>
    ensures { IfOk result (λ answer. IsImplementing (find_entry table.now) (holder_shown holder.entry) (shape interface.now) answer) }
{
    match table.underlying(interface) {
        TypeTerm::Interface(path, methods) => has_all(alloc, table, holder, path, methods),
        TypeTerm::Error => has_error(alloc, table, holder),
        TypeTerm::NoType => Ok(Ok(())),
        TypeTerm::Basic(_) => Ok(Ok(())),
        TypeTerm::Defined(_) => Ok(Ok(())),
        TypeTerm::Pointer(_) => Ok(Ok(())),
        TypeTerm::Struct(_, _, _) => Ok(Ok(())),
    }
}

/// Whether a type implements an interface type: its method set has each method of that type, with an identical signature.
///
/// Where it does not, the answer names the method that is missing, the first of them by the bytes of their names. One with another signature
/// is missing, and so is one whose receiver has a star where the type's method set is without it. `error` asks for `Error() string`. Where
/// `interface` is no interface type it has no methods, and nothing is missing. The Go specification, "Implementing an interface".
///
/// # Errors
///
/// `AllocError` where memory is wanting.
pub fn implements<'a>(
    alloc: Global,
    table: &'a TypeTable,
    term: &'a TypeTerm,
    interface: &'a TypeTerm,
) -> Result<Result<(), Missing<'a>>, AllocError>
    ensures { IfOk result (λ answer. IsImplementing (find_entry table.now) (shape term.now) (shape interface.now) answer) }
{
    holder_implements(alloc, table, Holder::Of(term), interface)
}

/// Whether a pointer to a type implements an interface type, as [`implements`] answers it.
///
/// # Errors
///
/// `AllocError` where memory is wanting.
pub fn implements_by_pointer<'a>(
    alloc: Global,
    table: &'a TypeTable,
    base: &'a TypeTerm,
    interface: &'a TypeTerm,
) -> Result<Result<(), Missing<'a>>, AllocError>
    ensures { IfOk result (λ answer. IsImplementing (find_entry table.now) (PointerTo (shape base.now)) (shape interface.now) answer) }
{
    holder_implements(alloc, table, Holder::PointerTo(base), interface)
}
