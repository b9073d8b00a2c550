//! What the source of functions means, and the law that their stack code does what it means; no code.
//!
//! The Go specification, "Expressions", "Statements", "Calls", "Order of evaluation", "Program initialization and execution".

mod laws;

pub use crate::source_meaning::laws::{meant_code_means_the_source, sample_means};
