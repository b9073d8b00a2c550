//! Each declaration that an answer of a snapshot names is there, and is spelled there as it is where it is named. Laws, with nothing to run.
//!
//! The Go specification, "Declarations and scope", "Packages", "Selectors".

mod laws;

pub use crate::declarations::laws::{declarations_are_there, sites_are_there};
