//! From the text of a Go file to its tree.
//!
//! A file is a package clause, its imports, then the declarations of the package block: constants, variables,
//! types, functions and methods, each with a semicolon behind it. A type is a name, a pointer, a struct, an
//! interface of methods, or a type in parentheses; an alias, `type A = B`, is another name of a named type. An
//! expression is an integer or string literal, a name, a literal of a struct, a selector, a call, one with unary
//! or binary operators, or one in parentheses. A statement is empty, a declaration of constants or variables, an
//! expression, `++`, `--`, an assignment, a short declaration, `return`, `break`, `continue`, a block, `if`, or
//! `for` without `range` (the Go specification, "Source file organization", "Declarations and scope", "Types",
//! "Expressions", "Statements" and "Semicolons").
//!
//! [`parse`] finds the tree of a text, or says where the text has none.
#![tactic(auto)]

mod error;
mod file;
mod funcs;
mod imports;
mod laws;
mod parsed;
pub mod stmts;

pub use error::{ParseError, SynFault};
pub use laws::{
    aliases_are_of_names, marked_is_whole, names_spelled, occurrences_spelled, one_rule, one_tree,
    one_whole_tree, whole_is_marked,
};
pub use parsed::{Parsed, parse, tree_of};

/// What the crates above name of `go_parse_reader`.
pub mod parse_reader {
    pub use go_parse_reader::types::add;
}

/// What the crates above name of `go_tree_core`.
pub mod tree_core {
    pub use go_tree_core::{Occ, OccId, at, occurrences, renamed};
}
