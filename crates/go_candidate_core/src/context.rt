//! Which names may stand at a place of a file, and have a declaration there: names alone.
//!
//! The Go specification, "Blocks", "Declarations and scope", "Operands", "Qualified identifiers".

mod alone;
mod laws;
mod things;

pub use crate::context::alone::{names_alone, scopes_with, stands_alone};
pub use crate::context::laws::things_decide;
pub use crate::context::things::Thing;
