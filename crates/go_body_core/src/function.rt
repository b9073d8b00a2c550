//! Functions with the types that they write: what their occurrences have, and their faults, by what names mean where they stand. No table of
//! types stands in these definitions; the laws say that the check of function bodies gives what they say. There is nothing to run.
//!
//! The Go specification, "Blocks", "Declarations and scope", "Types", "Statements".

mod laws;

pub use crate::function::laws::{
    bodies_are_as_written, functions_have_occurrences, functions_have_one_table,
    locals_are_declarations, types_are_seen_alike, worked_types,
};
