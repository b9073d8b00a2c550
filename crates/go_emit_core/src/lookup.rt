//! What names come to in code, by place: tables of what declarations and identifiers come to, and the answers to what code asks of the names of a
//! function.
//!
//! Which reference a call calls is said here: that of the occurrence at the call's own place.

mod decl_table;
mod names;
mod offset_table;

pub use crate::lookup::decl_table::{DeclSpot, DeclTable, SpottedDecl};
pub use crate::lookup::names::{FileCodeNames, FuncCodeNames, meant};
pub use crate::lookup::offset_table::OffsetTable;
