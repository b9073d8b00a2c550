//! Where the parts of an expression stand.
ghost use Rattle.std.specs.Prelude.{◌≡◌};
ghost use Rattle.go_expr_core.specs.Places as places;

use go_expr_core::denote_core::Stand;
use go_tree_nodes::token_core::Operator;

/// The place of what stands in parentheses: a name in them is no qualifier.
pub(crate) fn inside(place: Stand) -> Stand
    ensures { result ≡ places.inside place }
{
    match place {
        Stand::Type => Stand::Type,
        Stand::TypeDot | Stand::Value | Stand::BeforeDot => Stand::Value,
        Stand::Callee => Stand::Callee,
    }
}

/// The place of what stands behind a unary operator.
pub(crate) fn under_place(operator: Operator, place: Stand) -> Stand
    ensures { result ≡ places.under_place operator place }
{
    if matches!(operator, Operator::Star) {
        match place {
            Stand::Type | Stand::Callee => Stand::Type,
            Stand::TypeDot | Stand::Value | Stand::BeforeDot => Stand::Value,
        }
    } else {
        Stand::Value
    }
}
