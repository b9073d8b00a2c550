//! Programs whose functions have no faults mean something, whatever the bounds, and run as they mean: laws with nothing to run.
//!
//! The Go specification, "Declarations and scope", "Operators", "Calls", "Return statements", "Terminating statements".

mod laws;

pub use crate::fitting_sources::laws::{fitting_means_something, fitting_programs_run_as_meant};
