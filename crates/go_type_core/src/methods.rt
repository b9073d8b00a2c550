//! The methods of a type that are its own.
ghost use Rattle.std.specs.Prelude.{◌≡◌, [], ℕ, List, IfOk, map, not};
ghost use Rattle.go_term_core.specs.settling.Settled.{is_among_names, kind_of_term};
ghost use Rattle.go_table_core.specs.Methods.{has_field_before};
ghost use Rattle.go_table_core.specs.Shown.{member_shown};
ghost use Rattle.go_type_core.specs.Built.{unrepeated_methods, kept_over, settled_member};
ghost use Rattle.go_type_core.specs.mirrors.Making.{is_left_out, seen_after};

use go_table_core::path_core::ImportPath;
use go_table_core::{DeclaredMethod, FieldTable, IndexedTerm};
use go_term_core::settling::{Kind, Kinds, SeenNames, kind_of, settle_signature};
use go_term_core::text_core::is_blank;
use std::alloc::{AllocError, Global};

// Whether a method is its type's own: it is not blank, stands behind no field of its identifier, and repeats no earlier name. Its name
// is then among those that were seen.
fn take_method<'a>(
    fields: &FieldTable<'_>,
    path: &ImportPath,
    method: &'a DeclaredMethod,
    seen: &mut SeenNames<'a>,
) -> Result<bool, AllocError>
    ensures kept { IfOk result (λ is_kept. is_kept ≡ not (is_left_out path.now fields.now seen.old (member_shown method.now))) }
    ensures seen { IfOk result (λ is_kept. (n : List ℕ) → is_among_names seen.new n ≡ is_among_names (seen_after is_kept method.now.name seen.old) n) }
{
    let name = method.name.as_str();
    if is_blank(name) || fields.comes_before(path, method) {
        return Ok(false);
    }
    seen.add(name)
}

// A method with its settled signature.
fn settled_method<K: Kinds>(
    alloc: Global,
    kinds: &K,
    method: &DeclaredMethod,
) -> Result<DeclaredMethod, AllocError>
    ensures { IfOk result (λ m. member_shown m ≡ settled_member (K.kinds kinds.now) (member_shown method.now)) }
{
    let name = method.name.copy(alloc)?;
    let signature = settle_signature(alloc, kinds, &method.signature)?;
    Ok(DeclaredMethod {
        name,
        place: method.place,
        pointer: method.pointer,
        signature,
    })
}

// The methods that are a type's own, over its fields.
fn own_methods<K: Kinds>(
    alloc: Global,
    kinds: &K,
    path: &ImportPath,
    fields: &FieldTable<'_>,
    methods: &[DeclaredMethod],
) -> Result<Vec<DeclaredMethod>, AllocError>
    ensures { IfOk result (λ own. map member_shown own.items ≡ unrepeated_methods (K.kinds kinds.now) path.now fields.now [] (map member_shown methods.now)) }
{
    let mut seen = SeenNames::new(alloc);
    let mut own = Vec::new(alloc);
    for method in methods {
        if take_method(fields, path, method, &mut seen)? {
            own.push(settled_method(alloc, kinds, method)?)?;
        }
    }
    Ok(own)
}

/// The methods of a type over its underlying type, with settled signatures: those that are not blank, repeat no earlier name and stand
/// behind no field of the same identifier. A pointer type and an interface type have none.
pub(crate) fn kept_methods<K: Kinds>(
    alloc: Global,
    kinds: &K,
    path: &ImportPath,
    underlying: &IndexedTerm,
    methods: &[DeclaredMethod],
) -> Result<Vec<DeclaredMethod>, AllocError>
    ensures { IfOk result (λ own. map member_shown own.items ≡ kept_over (kind_of_term underlying.now) (K.kinds kinds.now) path.now underlying.now (map member_shown methods.now)) }
{
    match kind_of(underlying.term()) {
        Kind::Pointer => Ok(Vec::new(alloc)),
        Kind::Interface => Ok(Vec::new(alloc)),
        Kind::Nothing => {
            let fields = underlying.field_table(alloc)?;
            own_methods(alloc, kinds, path, &fields, methods)
        }
        Kind::Other => {
            let fields = underlying.field_table(alloc)?;
            own_methods(alloc, kinds, path, &fields, methods)
        }
    }
}
