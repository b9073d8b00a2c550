//! The nodes of the tree of a Go file, with what they write, the rules that they keep to, their heights, and how strongly operators bind.
#![tactic(auto)]

mod decls;
mod exprs;
mod files;
mod names;
mod operators;
mod starts;
mod stmts;
mod types;
mod usage;

pub use decls::{
    TypeDecl, TypeLine, TypeSpec, TypeSpecs, ValueDecl, ValueKind, ValueLine, ValueSpec,
    ValueSpecs, Values,
};
pub use exprs::{
    BinaryExpr, CallExpr, Expr, Exprs, Item, Key, LiteralExpr, NextExpr, SelectExpr,
    StructLiteralExpr,
};
pub use files::{
    Decl, File, FuncDecl, ImportDecl, ImportLine, ImportName, ImportSpec, ImportSpecs, Receiver,
    TopDecl,
};
pub use names::{Ident, Idents, NextIdent, TextLiteral};
pub use operators::{LOWEST, UNARY, is_unary, rank};
pub use starts::{type_name_start, type_start};
pub use stmts::{
    Assignment, Branch, Definition, ForHead, IfHead, InitPart, Line, Loop, Otherwise, Simple, Stmt,
    Update,
};
pub use types::{
    FieldLine, Fields, MethodLine, Param, Params, Results, Signature, TypeExpr, TypeName,
};
pub use usage::Usage;

/// What the crates above name of `go_text_core`.
pub mod text_core {
    pub use go_token_core::text_core::{
        Name, Rule, Span, add, boxed, fitted, is_blank, is_digit, is_exported, is_letter, same_id,
    };
}

/// What the crates above name of `go_token_core`.
pub mod token_core {
    pub use go_token_core::{
        Comment, CommentKind, KEYWORDS, Keyword, Operator, ScanError, Token, TokenKind,
        characters_of, integer_value, plain_value, string_value,
    };
}
