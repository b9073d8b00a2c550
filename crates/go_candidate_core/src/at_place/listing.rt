//! The struct types that decide what an expression denotes.
ghost use Rattle.std.specs.Prelude.{◌≡◌, ◌++◌, ◌∷◌, [], OnOk, IfOk, map};
ghost use Rattle.go_tree_nodes.specs.Shapes.{shape, items_of};
ghost use Rattle.go_tree_nodes.specs.TypeShapes.{shape_type};
ghost use Rattle.go_expr_core.specs.Locality.{needed_types, needed_types_in};

use go_tree_nodes::text_core::add;
use go_tree_nodes::{Expr, Item, TypeExpr};
use std::alloc::AllocError;

/// Adds a type.
///
/// # Errors
///
/// `AllocError` where memory is wanting.
pub(crate) fn list_type<'t>(
    tree: &'t TypeExpr,
    trees: &mut Vec<&'t TypeExpr>,
) -> Result<(), AllocError>
    ensures { OnOk result (map (λ t. shape_type t.now) trees.new.items ≡ map (λ t. shape_type t.now) trees.old.items ++ shape_type tree.now ∷ []) }
{
    add(trees, tree)
}

/// Adds the struct types before literals that what an expression denotes rests on: none in the elements of a literal.
///
/// # Errors
///
/// `AllocError` where memory is wanting.
#[cycle(needed)]
pub(crate) fn list_needed<'t>(
    expr: &'t Expr,
    trees: &mut Vec<&'t TypeExpr>,
) -> Result<(), AllocError>
    ensures { OnOk result (map (λ t. shape_type t.now) trees.new.items ≡ map (λ t. shape_type t.now) trees.old.items ++ needed_types (shape expr.now)) }
{
    match expr {
        Expr::Integer(_, _) | Expr::Text(_) | Expr::Name(_) => Ok(()),
        Expr::Paren(_, inner, _) => list_needed(inner, trees),
        Expr::Unary(_, _, inner) => list_needed(inner, trees),
        Expr::Binary(binary) => {
            list_needed(&binary.left, trees)?;
            list_needed(&binary.right, trees)
        }
        Expr::Select(select) => list_needed(&select.operand, trees),
        Expr::Call(call) => {
            list_needed(&call.callee, trees)?;
            list_needed_args(&call.args, trees)
        }
        Expr::Literal(_) => Ok(()),
        Expr::StructLiteral(literal) => list_type(&literal.type_expr, trees),
    }
}

// Those of arguments.
#[cycle(needed)]
fn list_needed_args<'t>(
    items: &'t Vec<Item>,
    trees: &mut Vec<&'t TypeExpr>,
) -> Result<(), AllocError>
    ensures { OnOk result (map (λ t. shape_type t.now) trees.new.items ≡ map (λ t. shape_type t.now) trees.old.items ++ needed_types_in (items_of items.now.items)) }
{
    for item in items {
        list_needed(&item.value, trees)?;
    }
    Ok(())
}
