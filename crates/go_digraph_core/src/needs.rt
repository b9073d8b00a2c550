//! Values of what needs one another: a node has a value once all have one that it needs, and none where what it needs leads back to
//! itself.
//!
//! A package's constants and variables are such nodes: the initialiser of each names those that it needs. The Go specification, "Package
//! initialization"; no constant is defined through itself.

mod laws;
mod needing;
mod table;

pub use crate::needs::laws::{endless_never_ends, one_table};
pub use crate::needs::needing::Needing;
pub use crate::needs::table::{edges_of, values_of};
