//! The names that have a declaration behind the dot of a value, and as keys of the elements of composite literals.
//!
//! The Go specification, "Selectors", "Calls", "Composite literals", "Exported identifiers".

mod keys;
mod members;

pub use crate::after_dot::keys::key_names;
pub use crate::after_dot::members::names_behind;
