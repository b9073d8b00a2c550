//! Existence of what is at most one: each package has types, values and a check, each input has a part, and each workspace
//! has a snapshot. Laws, with nothing to run.
//!
//! The Go specification, "Type declarations", "Package initialization", "Packages".

mod laws;

pub use crate::existence::laws::{
    chains_have_ends, faults_settle, inputs_have_parts, loops_are_decided, packages_have_checks,
    rows_have_values, types_exist, workspaces_have_snapshots,
};
