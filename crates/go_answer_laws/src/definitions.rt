//! How the declaration is written which a snapshot has for an identifier at an offset: it is never left out. Laws, with nothing to run.
//!
//! The Go specification, "Declarations and scope", "Packages", "Selectors".

mod laws;

pub use crate::definitions::laws::definitions_are_told;
