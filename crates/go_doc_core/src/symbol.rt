//! The names that a package declares outside functions, each with what it is and its doc comment.
//!
//! The Go specification, "Declarations and scope", "Exported identifiers"; "Go Doc Comments".

mod docs;
mod symbols;

pub use crate::symbol::symbols::{Symbol, exported_symbols, own_symbols};
