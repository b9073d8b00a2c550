//! Which imports of a file are used, and what is reported of a file.
//!
//! "It is illegal for a package to import itself, directly or indirectly, or to directly import a package without referring to any of its exported
//! identifiers" (the Go specification, "Import declarations").

mod laws;
mod reporting;
mod unused;
mod used;

pub use crate::usage::laws::{reports_are_one, used_imports_are_these};
pub use crate::usage::reporting::report;
pub use crate::usage::unused::refuse_unused;
