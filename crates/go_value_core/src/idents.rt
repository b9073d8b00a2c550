//! The identifiers that an expression needs.
ghost use Rattle.std.specs.Prelude.{◌≡◌, ◌++◌, [], ◌∷◌, map, OnOk};
ghost use Rattle.go_tree_nodes.specs.Shapes.{shape, items_of};
ghost use Rattle.go_stmt_core.specs.expr_core.Needed.{needed_idents, needed_by_args};

use crate::type_idents::{add_type, add_type_name};
use go_tree_nodes::{Expr, Ident, Item};
use std::alloc::AllocError;

/// Adds the identifiers that are looked up for what an expression denotes, in order of their places: those in the elements of literals
/// are none of them.
#[cycle(exprs)]
pub(crate) fn add_needed<'a>(expr: &'a Expr, found: &mut Vec<&'a Ident>) -> Result<(), AllocError>
    ensures { OnOk result (map (λ x. x.now) found.new.items ≡ map (λ x. x.now) found.old.items ++ needed_idents (shape expr.now)) }
{
    match expr {
        Expr::Integer(_, _) | Expr::Text(_) => Ok(()),
        Expr::Name(ident) => {
            found.push(ident)?;
            Ok(())
        }
        Expr::Paren(_, inner, _) => add_needed(inner, found),
        Expr::Unary(_, _, inner) => add_needed(inner, found),
        Expr::Binary(binary) => {
            add_needed(&binary.left, found)?;
            add_needed(&binary.right, found)
        }
        Expr::Select(select) => add_needed(&select.operand, found),
        Expr::Call(call) => {
            add_needed(&call.callee, found)?;
            add_args(&call.args, found)
        }
        Expr::Literal(literal) => add_type_name(&literal.type_name, found),
        Expr::StructLiteral(literal) => add_type(&literal.type_expr, found),
    }
}

// Those of arguments.
#[cycle(exprs)]
fn add_args<'a>(items: &'a Vec<Item>, found: &mut Vec<&'a Ident>) -> Result<(), AllocError>
    ensures { OnOk result (map (λ x. x.now) found.new.items ≡ map (λ x. x.now) found.old.items ++ needed_by_args (items_of items.now.items)) }
{
    for item in items {
        add_needed(&item.value, found)?;
    }
    Ok(())
}
