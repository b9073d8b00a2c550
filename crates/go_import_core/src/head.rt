//! What stands at the head of files: package clauses and imports. Where two workspaces have the same heads, number by number, their imports come to the
//! same, and the plan of the one is that of the other: so an edit below the imports needs no new plan.
//!
//! The Go specification, "Package clause", "Import declarations".

mod heads;
mod laws;
mod listed;
mod marks;
mod outside;
mod rows;
mod spans;

pub use crate::head::laws::{outcomes_stay, plans_stay};
pub use crate::head::listed::ListedPlan;
pub use crate::head::marks::{Compared, compare};
pub use crate::head::rows::same_rows;
pub use crate::head::spans::span_of;
