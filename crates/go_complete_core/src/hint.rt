//! The names that may stand in place of an identifier of a compiled package and have a declaration there, where its outcome rests on types: behind the dot
//! of a value, and as the key of an element of a composite literal. No file is checked again.
//!
//! The Go specification, "Selectors", "Calls", "Composite literals", "Declarations and scope".

mod hints;
mod kept;

pub use crate::hint::hints::names_by_types;
