//! Which names could stand in place of an identifier: the definition, and a law that joins what is found by the tree alone with what is checked.
//!
//! The Go specification, "Declarations and scope", "Selectors".

mod laws;

pub use crate::place::laws::spots_are_places;
