//! Snapshots of whole workspaces: what each occurrence has in each file of each package, and every fault, by what all packages show.
//!
//! The Go specification, "Packages", "Import declarations".
#![tactic(auto)]

mod fault;
mod found;
mod laws;
pub mod make;
mod making;
pub mod near;
mod shared;
mod snapshot;
pub mod whole_workspace;

pub use fault::PlacedFault;
pub use found::FileIn;
pub use laws::{faults_differ, faults_lie_in_files, one_snapshot, refusals_are_faults};
pub use making::{Recompiled, compile, recompile};
pub use shared::SharedSnapshot;
pub use snapshot::{Snapshot, join, join_parts};
