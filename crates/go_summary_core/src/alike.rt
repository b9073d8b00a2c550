//! Comparing terms, faces, names and entries, as an earlier summary is compared with a new one.
//!
//! What is compared is what contracts see, places and tags included, and each answer is exact, both ways. The Go specification, "Exported
//! identifiers".

mod entries;
mod faces;
mod names;
mod terms;

pub use crate::alike::entries::same_types;
pub use crate::alike::faces::same_faces;
pub use crate::alike::names::{same_exports, same_names};
pub use crate::alike::terms::equal_term;
