//! What the names of a package come to in code: what types and values are over, and what declarations, locals and occurrences come to.
//!
//! The Go specification, "Underlying types", "Constants", "Predeclared identifiers", "Declarations and scope", "Qualified identifiers", "Method sets",
//! "Selectors".

mod meanings;
mod names;
mod scene;
mod tables;
mod words;

pub use crate::meaning::names::file_names;
pub use crate::meaning::scene::{PackageNames, decl_at, names_of, shorter};
pub use crate::meaning::tables::{Tables, methods_of};
