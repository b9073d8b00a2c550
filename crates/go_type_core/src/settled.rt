//! The settled types of a package.
ghost use Rattle.std.specs.Prelude.{◌≡◌, IfOk, length, map, not};
ghost use Rattle.std.specs.Arc.{arc_value};
ghost use Rattle.go_term_core.specs.settling.Settled.{settled};
ghost use Rattle.go_table_core.specs.Entries.{find_entry, term_in};
ghost use Rattle.go_table_core.specs.Shown.{entry_shown};
ghost use Rattle.go_term_core.specs.Shapes.{shape};
ghost use Rattle.go_term_core.specs.Terms.{NoType};
ghost use Rattle.go_type_core.specs.mirrors.Chained.{known_kind, root_term, term_unless};
ghost use Rattle.go_type_core.specs.mirrors.Making.{AreShared, entry_of, is_root_at, own_term_at, plan_far, plan_kind, shared_at, shared_entry_at, terms_of_arcs};
ghost use Rattle.go_type_core.specs.mirrors.Numbers.{IsTable};

use crate::marks::{is_marked, root_at};
use crate::methods::kept_methods;
use crate::own_keys::OwnKeys;
use crate::roots::KnownKinds;
use go_table_core::{DefinedType, IndexedTerm, TypeEntry, TypeTable};
use go_term_core::TypeTerm;
use go_term_core::decl_core::DeclKey;
use go_term_core::settling::{Kind, settle};
use go_term_core::text_core::add;
use std::alloc::{AllocError, Global};
use std::sync::Arc;

// What underlying types are found by: the types that are none, the ends of chains of names, and the kinds of all defined types.
#[derive(Clone, Copy)]
struct Plan<'a> {
    nothing: &'a [bool],
    ends: &'a [Option<usize>],
    kinds: KnownKinds<'a>,
}

// A type with an index of its members, to be shared.
fn indexed(alloc: Global, term: TypeTerm) -> Result<Arc<IndexedTerm>, AllocError>
    ensures { IfOk result (λ u. arc_value u ≡ shape term) }
{
    let indexed = IndexedTerm::of(alloc, term)?;
    Ok(Arc::new(alloc, indexed)?)
}

// What is no type, to be shared.
fn no_term(alloc: Global) -> Result<Arc<IndexedTerm>, AllocError>
    ensures { IfOk result (λ u. arc_value u ≡ NoType) }
{
    indexed(alloc, TypeTerm::NoType)
}

// The underlying type of a type of another package, and none where there is none.
fn far_term(
    alloc: Global,
    imported: &TypeTable,
    key: &DeclKey,
) -> Result<Arc<IndexedTerm>, AllocError>
    ensures { IfOk result (λ u. arc_value u ≡ term_in (find_entry imported.now key.now)) }
{
    match imported.locate(key) {
        Some(located) => located.defined.share_underlying(),
        None => no_term(alloc),
    }
}

// A settled type, to be shared.
fn settled_term(
    alloc: Global,
    plan: &Plan<'_>,
    term: &TypeTerm,
) -> Result<Arc<IndexedTerm>, AllocError>
    ensures { IfOk result (λ u. arc_value u ≡ settled (plan_kind plan.now) (shape term.now)) }
{
    let term = settle(alloc, &plan.kinds, term)?;
    indexed(alloc, term)
}

// The underlying type of what is defined as another package's type, or by a type that is no name.
fn root_term(
    alloc: Global,
    plan: &Plan<'_>,
    term: &TypeTerm,
) -> Result<Arc<IndexedTerm>, AllocError>
    ensures { IfOk result (λ u. arc_value u ≡ root_term (plan_far plan.now) (plan_kind plan.now) (shape term.now)) }
{
    match term {
        TypeTerm::Defined(key) => far_term(alloc, plan.kinds.imported, key),
        TypeTerm::NoType
        | TypeTerm::Basic(_)
        | TypeTerm::Error
        | TypeTerm::Pointer(_)
        | TypeTerm::Struct(_, _, _)
        | TypeTerm::Interface(_, _) => settled_term(alloc, plan, term),
    }
}

// Whether the type with a number is a type, and the chain of names from it has no step.
fn is_root(plan: &Plan<'_>, number: usize) -> bool
    ensures { result ≡ is_root_at plan.now.nothing.now plan.now.ends.now number }
{
    !is_marked(plan.nothing, number) && root_at(plan.ends, number) == number
}

// The underlying type of a root, and none of others.
fn own_term(
    alloc: Global,
    plan: &Plan<'_>,
    none: &Arc<IndexedTerm>,
    number: usize,
    entry: &TypeEntry,
) -> Result<Arc<IndexedTerm>, AllocError>
    requires { arc_value none.now ≡ NoType }
    ensures { IfOk result (λ u. arc_value u ≡ term_unless (not (is_root_at plan.now.nothing.now plan.now.ends.now number)) (root_term (plan_far plan.now) (plan_kind plan.now) (shape entry.now.term))) }
{
    if is_root(plan, number) {
        root_term(alloc, plan, &entry.term)
    } else {
        Ok(Arc::try_clone(none)?)
    }
}

// The underlying types of roots.
fn own_terms(
    alloc: Global,
    plan: &Plan<'_>,
    none: &Arc<IndexedTerm>,
    entries: &[TypeEntry],
) -> Result<Vec<Arc<IndexedTerm>>, AllocError>
    requires { arc_value none.now ≡ NoType }
    ensures { IfOk result (λ terms. IsTable (terms_of_arcs terms.items) (length entries.now) (own_term_at (plan_far plan.now) (plan_kind plan.now) plan.now.nothing.now (map entry_shown entries.now) plan.now.ends.now)) }
{
    let mut terms = Vec::with_capacity(alloc, entries.len())?;
    for (number, entry) in entries.iter().enumerate() {
        let term = own_term(alloc, plan, none, number, entry)?;
        add(&mut terms, term)?;
    }
    Ok(terms)
}

// The underlying type of the type with a number, from those of roots.
fn share_term(
    plan: &Plan<'_>,
    none: &Arc<IndexedTerm>,
    terms: &[Arc<IndexedTerm>],
    number: usize,
) -> Result<Arc<IndexedTerm>, AllocError>
    requires { arc_value none.now ≡ NoType }
    ensures { IfOk result (λ u. arc_value u ≡ shared_at plan.now.nothing.now plan.now.ends.now (terms_of_arcs terms.now) number) }
{
    if is_marked(plan.nothing, number) {
        return Ok(Arc::try_clone(none)?);
    }
    match terms.get(root_at(plan.ends, number)) {
        Some(term) => Ok(Arc::try_clone(term)?),
        None => Ok(Arc::try_clone(none)?),
    }
}

// A type with its underlying type.
fn defined_type(
    alloc: Global,
    plan: &Plan<'_>,
    entry: &TypeEntry,
    underlying: Arc<IndexedTerm>,
) -> Result<DefinedType, AllocError>
    ensures { IfOk result (λ d. d ≡ entry_of (plan_kind plan.now) (arc_value underlying) (entry_shown entry.now)) }
{
    let methods = kept_methods(
        alloc,
        &plan.kinds,
        &entry.key.path,
        &underlying,
        &entry.methods,
    )?;
    let name = entry.name.copy(alloc)?;
    let key = entry.key.share()?;
    DefinedType::new(alloc, key, name, underlying, methods)
}

// The types, from the underlying types of roots.
fn shared_types(
    alloc: Global,
    plan: &Plan<'_>,
    none: &Arc<IndexedTerm>,
    terms: &[Arc<IndexedTerm>],
    entries: &[TypeEntry],
) -> Result<Vec<DefinedType>, AllocError>
    requires { arc_value none.now ≡ NoType }
    ensures { IfOk result (λ types. IsTable types.items (length entries.now) (shared_entry_at (plan_kind plan.now) plan.now.nothing.now (map entry_shown entries.now) plan.now.ends.now (terms_of_arcs terms.now))) }
{
    let mut types = Vec::with_capacity(alloc, entries.len())?;
    for (number, entry) in entries.iter().enumerate() {
        let underlying = share_term(plan, none, terms, number)?;
        let defined = defined_type(alloc, plan, entry, underlying)?;
        add(&mut types, defined)?;
    }
    Ok(types)
}

/// The types of a package, each with its underlying type, which is shared by all that are defined as one another.
pub(crate) fn settled_types<'a>(
    alloc: Global,
    keys: &'a OwnKeys,
    kinds: &'a [Kind],
    imported: &'a TypeTable,
    nothing: &'a [bool],
    ends: &'a [Option<usize>],
    entries: &[TypeEntry],
) -> Result<Vec<DefinedType>, AllocError>
    ensures { IfOk result (λ types. AreShared (find_entry imported.now) (known_kind keys.now kinds.now (find_entry imported.now)) nothing.now ends.now (map entry_shown entries.now) types.items) }
{
    let kinds = KnownKinds {
        keys,
        kinds,
        imported,
    };
    let plan = Plan {
        nothing,
        ends,
        kinds,
    };
    let none = no_term(alloc)?;
    let terms = own_terms(alloc, &plan, &none, entries)?;
    shared_types(alloc, &plan, &none, &terms, entries)
}
