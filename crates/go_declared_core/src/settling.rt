//! Types and signatures as they are written, settled.
ghost use Rattle.std.specs.Prelude.{◌≡◌, IfOk};
ghost use Rattle.std.specs.Option.{option_map};
ghost use Rattle.go_tree_nodes.specs.TypeShapes.{shape_type, shape_signature};
ghost use Rattle.go_term_core.specs.Shapes.{shape, sign_of};
ghost use Rattle.go_handle_core.specs.table_core.Entries.{find_entry};
ghost use Rattle.go_term_core.specs.settling.Settled.{settled_sign};
ghost use Rattle.go_typexpr_core.specs.written.Written.{in_file, signature_of};
ghost use Rattle.go_handle_core.specs.deciding.Rules.{typed};
ghost use Rattle.go_declared_core.specs.Written.{type_written};
ghost use Rattle.go_handle_core.specs.table_core.Entries.{kinds_in};

use go_handle_core::table_core::TypeTable;
use go_term_core::settling::{settle, settle_signature};
use go_term_core::{Signature, TypeTerm, is_no_type};
use go_tree_nodes::TypeExpr;
use go_typexpr_core::written::{TypeNames, WrittenIn, write_signature, write_type};
use std::alloc::{AllocError, Global};

/// A type, where it is one in a table.
pub(crate) fn typed(types: &TypeTable, term: TypeTerm) -> Option<TypeTerm>
    ensures { option_map shape result ≡ typed (find_entry types.now) (shape term) }
{
    if is_no_type(types.underlying(&term)) {
        return None;
    }
    Some(term)
}

/// A type that is written in a file, settled: none where it is no type.
pub(crate) fn settled_type<N: TypeNames>(
    alloc: Global,
    names: &N,
    at: &WrittenIn<'_>,
    types: &TypeTable,
    tree: &TypeExpr,
) -> Result<Option<TypeTerm>, AllocError>
    ensures { IfOk result (λ t. option_map shape t ≡ type_written (N.meaning names.now) (in_file at.now) types.now (shape_type tree.now)) }
{
    let written = write_type(alloc, names, at, tree)?;
    let settled = settle(alloc, types, &written)?;
    Ok(typed(types, settled))
}

/// A signature that is written in a file, settled.
pub(crate) fn settled_signature<N: TypeNames>(
    alloc: Global,
    names: &N,
    at: &WrittenIn<'_>,
    types: &TypeTable,
    tree: &go_tree_nodes::Signature,
) -> Result<Signature, AllocError>
    ensures { IfOk result (λ g. sign_of g ≡ settled_sign (kinds_in types.now) (signature_of (N.meaning names.now) (in_file at.now) (shape_signature tree.now))) }
{
    let written = write_signature(alloc, names, at, tree)?;
    settle_signature(alloc, types, &written)
}
