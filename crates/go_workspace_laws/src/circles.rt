//! The types and aliases of a workspace that reach themselves are those that have the fault of it, in whatever package. Laws, with nothing to run.
//!
//! The Go specification, "Type declarations", "Alias declarations", "Import declarations".

mod laws;

pub use crate::circles::laws::{
    aliases_stand_for_names, circles_are_faults, circles_are_faults_in_all,
};
