//! The tree of a Go file, and its occurrences: the identifiers that are used, the imports and the calls.
//! [`occurrences`] lists them all, [`at`] answers which one stands at a place, [`renamed`] gives one another spelling, [`copies`] copies trees.
#![tactic(auto)]

pub mod copies;
mod expr_occurrences;
mod file_occurrences;
mod laws;
mod occurrence;
mod renaming;
mod seek;
mod stmt_occurrences;
mod type_occurrences;
mod visitor;

pub use crate::copies::copy;
pub use file_occurrences::occurrences;
pub use go_tree_nodes::{
    Assignment, BinaryExpr, Branch, CallExpr, Decl, Definition, Expr, Exprs, FieldLine, Fields,
    File, ForHead, FuncDecl, Ident, Idents, IfHead, ImportDecl, ImportLine, ImportName, ImportSpec,
    ImportSpecs, InitPart, Item, Key, Line, LiteralExpr, Loop, MethodLine, NextExpr, NextIdent,
    Otherwise, Param, Params, Receiver, Results, SelectExpr, Signature, Simple, Stmt,
    StructLiteralExpr, TextLiteral, TopDecl, TypeDecl, TypeExpr, TypeLine, TypeName, TypeSpec,
    TypeSpecs, Update, Usage, ValueDecl, ValueKind, ValueLine, ValueSpec, ValueSpecs, Values,
};
pub use laws::{
    calls_are_occurrences, imports_are_occurrences, names_are_used_or_declared,
    occurrences_are_written, respelled_files_write_the_same,
};
pub use occurrence::{Context, Occ, OccId, Role};
pub use renaming::renamed;
pub use seek::at;
