//! Edits of a text: those of parts of it, all at once, and changes that an editor tells, one after another.
//!
//! The Language Server Protocol 3.17, "TextEdit[]" and "TextDocumentContentChangeEvent".

mod changes;
mod edits;
mod laws;
mod moving;

pub use crate::edits::changes::{Change, apply_changes};
pub use crate::edits::edits::{Edit, EditFault, apply_edits};
pub use crate::edits::laws::{edits_keep_order, edits_keep_the_rest};
pub use crate::edits::moving::moved;
