//! Runs of the packages of a workspace, from their objects.

mod launch;

pub use crate::launches::launch::{SitePlaces, run, run_printing};
pub use go_machine_core::runs::{PanicValue, Run};
