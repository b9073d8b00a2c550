//! The names that fit at a place in one of several forms of a text: each form is a snapshot of its own, with the place of the identifier in it.
//!
//! The Go specification, "Declarations and scope", "Qualified identifiers", "Selectors".

mod forms;

pub use crate::forms::forms::{Fitting, Formed, names_in_forms};
