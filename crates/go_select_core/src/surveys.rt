//! All that selectors denote behind operands of one type, found by one walk over the types that it embeds, and told name by name.
//!
//! The Go specification, "Selectors", "Struct types".

mod names;
mod reach;
mod sole;
mod survey;
mod walk;

pub use crate::surveys::reach::breadth;
pub use crate::surveys::sole::{SoleField, sole_embedded};
pub use crate::surveys::survey::Survey;
