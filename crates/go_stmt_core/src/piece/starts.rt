//! Where lists begin, and which are one call.
ghost use Rattle.std.specs.Prelude.{◌≡◌};
ghost use Rattle.go_tree_nodes.specs.Shapes.{shape_exprs};
ghost use Rattle.go_tree_nodes.specs.TypeShapes.{shape_idents};
ghost use Rattle.go_stmt_core.specs.piece.Values as values;
ghost use Rattle.go_stmt_core.specs.piece.Specifications as specifications;

use go_expr_core::{is_call, start};
use go_tree_nodes::{Exprs, Idents};

/// Whether the only expression of a list is a call, in parentheses or not.
pub(crate) fn is_lone_call(exprs: &Exprs) -> bool
    ensures { result ≡ values.is_call_alone (shape_exprs exprs.now) }
{
    match exprs.more.as_slice() {
        [] => is_call(&exprs.first),
        _ => false,
    }
}

/// The first byte of a list.
pub(crate) fn list_start(exprs: &Exprs) -> usize
    ensures { result ≡ values.list_start (shape_exprs exprs.now) }
{
    start(&exprs.first)
}

/// The first byte of some names.
pub(crate) fn names_start(names: &Idents) -> usize
    ensures { result ≡ specifications.names_start (shape_idents names.now) }
{
    names.first.span.start as usize
}
