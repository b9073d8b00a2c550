//! Declarations of constants, variables and types.
use crate::exprs::Exprs;
use crate::names::{Ident, Idents};
use crate::types::TypeExpr;
use go_token_core::text_core::Span;

/// What a declaration of values declares.
#[derive(Clone, Copy, Debug, PartialEq, Eq)]
pub enum ValueKind {
    Const,
    Var,
}

/// Names, their type where it is written, and their values where these are, behind the place of `=`.
pub struct ValueSpec {
    pub names: Idents,
    pub type_expr: Option<TypeExpr>,
    pub values: Option<Values>,
}

impl Drop for ValueSpec {
    fn drop(self) {
        let ValueSpec {
            names: _,
            type_expr: _,
            values: _,
        } = self;
    }
}

/// The place of `=`, and the values behind it.
pub struct Values {
    pub assign: Span,
    pub exprs: Exprs,
}

impl Drop for Values {
    fn drop(self) {
        let Values {
            assign: _,
            exprs: _,
        } = self;
    }
}

/// A specification in parentheses, and the semicolon behind it where one stands.
pub struct ValueLine {
    pub spec: ValueSpec,
    pub semicolon: Option<Span>,
}

impl Drop for ValueLine {
    fn drop(self) {
        let ValueLine {
            spec: _,
            semicolon: _,
        } = self;
    }
}

/// One specification, or several in parentheses.
pub enum ValueSpecs {
    One(ValueSpec),
    /// Between the places of the parentheses.
    Group(Span, Vec<ValueLine>, Span),
}

impl Drop for ValueSpecs {
    fn drop(self) {
        match self {
            ValueSpecs::One(_) => {}
            ValueSpecs::Group(_, _, _) => {}
        }
    }
}

/// A declaration of constants or variables.
pub struct ValueDecl {
    pub kind: ValueKind,
    /// The place of `const` or `var`.
    pub keyword: Span,
    pub specs: ValueSpecs,
}

impl Drop for ValueDecl {
    fn drop(self) {
        let ValueDecl {
            kind: _,
            keyword: _,
            specs: _,
        } = self;
    }
}

/// The name of a type, and the type that it stands for.
pub struct TypeSpec {
    pub name: Ident,
    /// The place of `=` where it is an alias, whose type is a name.
    pub alias: Option<Span>,
    pub type_expr: TypeExpr,
}

impl Drop for TypeSpec {
    fn drop(self) {
        let TypeSpec {
            name: _,
            alias: _,
            type_expr: _,
        } = self;
    }
}

/// A specification in parentheses, and the semicolon behind it where one stands.
pub struct TypeLine {
    pub spec: TypeSpec,
    pub semicolon: Option<Span>,
}

impl Drop for TypeLine {
    fn drop(self) {
        let TypeLine {
            spec: _,
            semicolon: _,
        } = self;
    }
}

/// One specification, or several in parentheses.
pub enum TypeSpecs {
    One(TypeSpec),
    /// Between the places of the parentheses.
    Group(Span, Vec<TypeLine>, Span),
}

impl Drop for TypeSpecs {
    fn drop(self) {
        match self {
            TypeSpecs::One(_) => {}
            TypeSpecs::Group(_, _, _) => {}
        }
    }
}

/// A declaration of types, behind the place of `type`.
pub struct TypeDecl {
    pub keyword: Span,
    pub specs: TypeSpecs,
}

impl Drop for TypeDecl {
    fn drop(self) {
        let TypeDecl {
            keyword: _,
            specs: _,
        } = self;
    }
}
