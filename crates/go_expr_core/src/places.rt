//! Where the parts of an expression stand.
ghost use Rattle.std.specs.Prelude.{◌≡◌};
ghost use Rattle.go_tree_nodes.specs.Shapes.{shape, shape_key};
ghost use Rattle.go_expr_core.specs.Places as places;

use go_denote_core::Stand;
use go_tree_core::Role;
use go_tree_nodes::token_core::Operator;
use go_tree_nodes::{Expr, Key, Usage, type_name_start, type_start};

/// The place of what stands in parentheses: a name in them is no qualifier.
pub(crate) fn inside(place: Stand) -> Stand
    ensures { result ≡ places.inside place }
{
    match place {
        Stand::Type => Stand::Type,
        Stand::TypeDot | Stand::Value | Stand::BeforeDot => Stand::Value,
        Stand::Callee => Stand::Callee,
    }
}

/// The place of what stands behind a unary operator.
pub(crate) fn under_place(operator: Operator, place: Stand) -> Stand
    ensures { result ≡ places.under_place operator place }
{
    if matches!(operator, Operator::Star) {
        match place {
            Stand::Type | Stand::Callee => Stand::Type,
            Stand::TypeDot | Stand::Value | Stand::BeforeDot => Stand::Value,
        }
    } else {
        Stand::Value
    }
}

fn before_place(place: Stand) -> Stand
    ensures { result ≡ places.before_place place }
{
    match place {
        Stand::Type => Stand::TypeDot,
        Stand::TypeDot | Stand::Value | Stand::Callee | Stand::BeforeDot => Stand::BeforeDot,
    }
}

/// Whether an expression is a name alone: a name in parentheses is none.
pub fn is_name(expr: &Expr) -> bool
    ensures { result ≡ places.is_name (shape expr.now) }
{
    match expr {
        Expr::Name(_) => true,
        Expr::Integer(_, _)
        | Expr::Text(_)
        | Expr::Paren(_, _, _)
        | Expr::Unary(_, _, _)
        | Expr::Binary(_)
        | Expr::Select(_) => false,
        Expr::Call(_) => false,
        Expr::Literal(_) => false,
        Expr::StructLiteral(_) => false,
    }
}

/// The place of the expression left of the dot of a selector at a place: before a dot a name alone may be a package, and of a type it has to be
/// one; anything else is an operand.
///
/// The Go specification, "Qualified identifiers", "Selectors".
pub fn left_place(place: Stand, expr: &Expr) -> Stand
    ensures { result ≡ places.left_place place (shape expr.now) }
{
    match expr {
        Expr::Name(_) => before_place(place),
        Expr::Integer(_, _)
        | Expr::Text(_)
        | Expr::Paren(_, _, _)
        | Expr::Unary(_, _, _)
        | Expr::Binary(_)
        | Expr::Select(_) => Stand::Value,
        Expr::Call(_) => Stand::Value,
        Expr::Literal(_) => Stand::Value,
        Expr::StructLiteral(_) => Stand::Value,
    }
}

/// How a selector at a place is used as a whole: as a type, as what is called, or as a value.
pub fn whole(place: Stand) -> Usage
    ensures { result ≡ places.whole place }
{
    match place {
        Stand::Type => Usage::Type,
        Stand::Callee => Usage::Callee,
        Stand::TypeDot | Stand::Value | Stand::BeforeDot => Usage::Value,
    }
}

/// Whether it is a composite literal, in parentheses or not.
pub(crate) fn is_literal(expr: &Expr) -> bool
    ensures { result ≡ places.is_literal (shape expr.now) }
{
    match expr {
        Expr::Literal(_) => true,
        Expr::StructLiteral(_) => true,
        Expr::Paren(_, inner, _) => is_literal(inner),
        Expr::Call(_) => false,
        Expr::Integer(_, _)
        | Expr::Text(_)
        | Expr::Name(_)
        | Expr::Unary(_, _, _)
        | Expr::Binary(_)
        | Expr::Select(_) => false,
    }
}

/// Whether an expression is a call, in parentheses or not.
pub fn is_call(expr: &Expr) -> bool
    ensures { result ≡ places.is_call (shape expr.now) }
{
    match expr {
        Expr::Call(_) => true,
        Expr::Paren(_, inner, _) => is_call(inner),
        Expr::Literal(_) => false,
        Expr::StructLiteral(_) => false,
        Expr::Integer(_, _)
        | Expr::Text(_)
        | Expr::Name(_)
        | Expr::Unary(_, _, _)
        | Expr::Binary(_)
        | Expr::Select(_) => false,
    }
}

/// The role of a name at a place.
pub(crate) fn place_role(place: Stand) -> Role
    ensures { result ≡ places.place_role place }
{
    match place {
        Stand::Type => Role::Type,
        Stand::TypeDot | Stand::BeforeDot => Role::Qualifier,
        Stand::Value => Role::Value,
        Stand::Callee => Role::Callee,
    }
}

/// The first byte of an expression, in bytes from the file's start.
pub fn start(expr: &Expr) -> usize
    ensures { result ≡ places.start (shape expr.now) }
{
    match expr {
        Expr::Integer(_, span) => span.start as usize,
        Expr::Text(text) => text.span.start as usize,
        Expr::Name(ident) => ident.span.start as usize,
        Expr::Paren(first, _, _) => first.start as usize,
        Expr::Unary(_, span, _) => span.start as usize,
        Expr::Binary(binary) => start(&binary.left),
        Expr::Select(select) => start(&select.operand),
        Expr::Call(call) => start(&call.callee),
        Expr::Literal(literal) => type_name_start(&literal.type_name),
        Expr::StructLiteral(literal) => type_start(&literal.type_expr),
    }
}

/// The first byte of an element.
pub(crate) fn item_start(key: &Option<Box<Key>>, value: &Expr) -> usize
    ensures { result ≡ places.item_start (shape_key key.now) (shape value.now) }
{
    match key {
        None => start(value),
        Some(key) => key.name.span.start as usize,
    }
}
