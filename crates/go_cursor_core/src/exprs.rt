//! The identifier of an expression that begins at an offset.
ghost use Rattle.std.specs.Prelude.{◌≡◌};
ghost use Rattle.go_tree_nodes.specs.Shapes.{shape, shape_key, items_of, shape_exprs};
ghost use Rattle.go_cursor_core.specs.Shown.{found_shown, literal_shown};
ghost use Rattle.go_cursor_core.specs.Used.{first_used, expr_used, key_used, args_used, elements_used, exprs_used};

use crate::places::{inside, under_place};
use crate::spot::{LiteralOf, Spot, UsedName};
use crate::types::{in_type, in_type_name, named};
use go_expr_core::denote_core::Stand;
use go_expr_core::{left_place, whole};
use go_tree_nodes::{CallExpr, Expr, Exprs, Item, Key, LiteralExpr, SelectExpr, StructLiteralExpr};

/// The identifier of an expression in a place that begins at an offset.
#[cycle(exprs)]
pub(crate) fn in_expr(expr: &Expr, start: usize, place: Stand) -> Option<UsedName<'_>>
    ensures { found_shown result ≡ first_used start (expr_used place (shape expr.now)) }
{
    match expr {
        Expr::Integer(_, _) => None,
        Expr::Text(_) => None,
        Expr::Name(ident) => named(ident, start, Spot::Name(place)),
        Expr::Paren(_, inner, _) => in_expr(inner, start, inside(place)),
        Expr::Unary(operator, _, inner) => in_expr(inner, start, under_place(*operator, place)),
        Expr::Binary(binary) => match in_expr(&binary.left, start, Stand::Value) {
            None => in_expr(&binary.right, start, Stand::Value),
            found => found,
        },
        Expr::Select(select) => {
            let left = left_place(place, &select.operand);
            match in_expr(&select.operand, start, left) {
                None => {
                    let spot = Spot::Behind(whole(place), left, &select.operand);
                    named(&select.name, start, spot)
                }
                found => found,
            }
        }
        Expr::Call(call) => match in_expr(&call.callee, start, Stand::Callee) {
            None => in_args(&call.args, start),
            found => found,
        },
        Expr::Literal(literal) => {
            let name = &literal.type_name;
            match in_type_name(name, start) {
                None => in_elements(&literal.elements, start, LiteralOf::Named(name)),
                found => found,
            }
        }
        Expr::StructLiteral(literal) => {
            let written = &literal.type_expr;
            match in_type(written, start) {
                None => in_elements(&literal.elements, start, LiteralOf::Written(written)),
                found => found,
            }
        }
    }
}

// The identifier of arguments.
#[cycle(exprs)]
fn in_args(args: &Vec<Item>, start: usize) -> Option<UsedName<'_>>
    ensures { found_shown result ≡ first_used start (args_used (items_of args.now.items)) }
{
    for arg in args {
        let found = in_expr(&arg.value, start, Stand::Value);
        if found.is_some() {
            return found;
        }
    }
    None
}

// A key, where one stands, of the element of a number.
fn in_key<'t>(
    key: &'t Option<Box<Key>>,
    start: usize,
    of_type: LiteralOf<'t>,
    elements: &'t Vec<Item>,
    at: usize,
) -> Option<UsedName<'t>>
    ensures { found_shown result ≡ first_used start (key_used (literal_shown of_type.entry) (items_of elements.now.items) at (shape_key key.now)) }
{
    match key {
        None => None,
        Some(key) => named(&key.name, start, Spot::Key(of_type, elements, at)),
    }
}

// The identifier of the elements of a literal of a type.
#[cycle(exprs)]
fn in_elements<'t>(
    elements: &'t Vec<Item>,
    start: usize,
    of_type: LiteralOf<'t>,
) -> Option<UsedName<'t>>
    ensures { found_shown result ≡ first_used start (elements_used (literal_shown of_type.entry) (items_of elements.now.items) 0 (items_of elements.now.items)) }
{
    for (at, element) in elements.iter().enumerate() {
        let found = in_key(&element.key, start, of_type, elements, at);
        if found.is_some() {
            return found;
        }
        let found = in_expr(&element.value, start, Stand::Value);
        if found.is_some() {
            return found;
        }
    }
    None
}

/// The identifier of expressions with commas between them that begins at an offset.
pub(crate) fn in_exprs(exprs: &Exprs, start: usize) -> Option<UsedName<'_>>
    ensures { found_shown result ≡ first_used start (exprs_used (shape_exprs exprs.now)) }
{
    let found = in_expr(&exprs.first, start, Stand::Value);
    if found.is_some() {
        return found;
    }
    for next in &exprs.more {
        let found = in_expr(&next.expr, start, Stand::Value);
        if found.is_some() {
            return found;
        }
    }
    None
}
