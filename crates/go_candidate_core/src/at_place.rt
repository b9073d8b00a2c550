//! What an expression denotes at a place of a package that was checked, by what is kept of the package and of the locals that are open there; and the names
//! that have a declaration behind it, or as a key of a composite literal. Nothing is checked again but the one expression.
//!
//! The Go specification, "Blocks", "Declarations and scope", "Selectors", "Composite literals".

mod around;
mod found;
mod keyed;
mod listing;
mod local;
mod naming;
mod noting;
mod place;
mod types;

pub use crate::at_place::local::OpenLocal;
pub use crate::at_place::naming::{names_at_dot, names_at_key};
pub use crate::at_place::place::PlaceAt;
