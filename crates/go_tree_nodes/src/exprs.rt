//! Expressions.
ghost use Rattle.std.specs.Prelude.{◌≡◌};
ghost use Rattle.go_tree_nodes.specs.Naming.{name_of};
ghost use Rattle.go_tree_nodes.specs.Shapes.{shape};

use crate::names::{Ident, TextLiteral};
use crate::types::{TypeExpr, TypeName};
use go_token_core::Operator;
use go_token_core::text_core::Span;

/// An expression.
#[cycle(expr)]
pub enum Expr {
    /// An integer literal: its value, below 2^63, and its place.
    Integer(u64, Span),
    /// A string literal.
    Text(TextLiteral),
    /// An operand that is a name.
    Name(Ident),
    /// An expression in parentheses, between the places of the two.
    Paren(Span, Box<Expr>, Span),
    /// A unary operator with its place, before its operand.
    Unary(Operator, Span, Box<Expr>),
    Binary(Box<BinaryExpr>),
    Select(Box<SelectExpr>),
    Call(Box<CallExpr>),
    Literal(Box<LiteralExpr>),
    StructLiteral(Box<StructLiteralExpr>),
}

impl Drop for Expr {
    #[cycle(expr_end)]
    fn drop(self) {
        match self {
            Expr::Integer(_, _) => {}
            Expr::Text(_) => {}
            Expr::Name(_) => {}
            Expr::Paren(_, _, _) => {}
            Expr::Unary(_, _, _) => {}
            Expr::Binary(_) => {}
            Expr::Select(_) => {}
            Expr::Call(_) => {}
            Expr::Literal(_) => {}
            Expr::StructLiteral(_) => {}
        }
    }
}

impl Expr {
    /// The name that the expression is, where it is one; another expression is let go.
    pub fn into_name(self) -> Option<Ident>
        ensures { result ≡ name_of (shape self) }
    {
        match self {
            Expr::Name(name) => Some(name),
            other => {
                drop(other);
                None
            }
        }
    }
}

// Trees keep very many of these: a form that takes more room stands behind a box.
const _: () = prove!(size_of::<Expr>() == 32);

/// A binary operator with its place, between its operands.
#[cycle(expr)]
pub struct BinaryExpr {
    pub left: Expr,
    pub operator: Operator,
    pub span: Span,
    pub right: Expr,
}

impl Drop for BinaryExpr {
    #[cycle(expr_end)]
    fn drop(self) {
        let BinaryExpr {
            left: _,
            operator: _,
            span: _,
            right: _,
        } = self;
    }
}

/// An operand, the place of the dot, and the name behind it.
#[cycle(expr)]
pub struct SelectExpr {
    pub operand: Expr,
    pub dot: Span,
    pub name: Ident,
}

impl Drop for SelectExpr {
    #[cycle(expr_end)]
    fn drop(self) {
        let SelectExpr {
            operand: _,
            dot: _,
            name: _,
        } = self;
    }
}

/// What is called, and the arguments between the places of the parentheses.
#[cycle(expr)]
pub struct CallExpr {
    pub callee: Expr,
    pub open: Span,
    pub args: Vec<Item>,
    pub close: Span,
}

impl Drop for CallExpr {
    #[cycle(expr_end)]
    fn drop(self) {
        let CallExpr {
            callee: _,
            open: _,
            args: _,
            close: _,
        } = self;
    }
}

/// A composite literal of a named type, its elements between the places of the braces.
#[cycle(expr)]
pub struct LiteralExpr {
    pub type_name: TypeName,
    pub open: Span,
    pub elements: Vec<Item>,
    pub close: Span,
}

impl Drop for LiteralExpr {
    #[cycle(expr_end)]
    fn drop(self) {
        let LiteralExpr {
            type_name: _,
            open: _,
            elements: _,
            close: _,
        } = self;
    }
}

/// A composite literal of a struct type that is written out, its elements between the places of the braces.
#[cycle(expr)]
pub struct StructLiteralExpr {
    pub type_expr: TypeExpr,
    pub open: Span,
    pub elements: Vec<Item>,
    pub close: Span,
}

impl Drop for StructLiteralExpr {
    #[cycle(expr_end)]
    fn drop(self) {
        let StructLiteralExpr {
            type_expr: _,
            open: _,
            elements: _,
            close: _,
        } = self;
    }
}

/// An argument or an element, with its key where it has one, and the comma behind it where one stands.
#[cycle(expr)]
pub struct Item {
    pub key: Option<Box<Key>>,
    pub value: Expr,
    pub comma: Option<Span>,
}

impl Drop for Item {
    #[cycle(expr_end)]
    fn drop(self) {
        let Item {
            key: _,
            value: _,
            comma: _,
        } = self;
    }
}

const _: () = prove!(size_of::<Item>() == 64);

/// The key of an element, and the place of its colon.
pub struct Key {
    pub name: Ident,
    pub colon: Span,
}

impl Drop for Key {
    fn drop(self) {
        let Key { name: _, colon: _ } = self;
    }
}

/// Expressions with commas between them.
#[derive(Drop)]
pub struct Exprs {
    pub first: Expr,
    pub more: Vec<NextExpr>,
}

/// A comma, and the expression behind it.
#[derive(Drop)]
pub struct NextExpr {
    pub comma: Span,
    pub expr: Expr,
}
