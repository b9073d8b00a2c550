//! The snapshot after an edit of bodies: where one package of a workspace has other texts and tells what it told, it is checked alone, and nothing is
//! planned or compared anew.
//!
//! The Go specification, "Packages", "Import declarations", "Exported identifiers".
#![tactic(auto)]

mod comparing;
mod editing;
mod keeping;

pub use editing::recompile_edit;
