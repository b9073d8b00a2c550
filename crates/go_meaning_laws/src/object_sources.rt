//! The sources of the functions of objects, and that they run as their sources mean: laws with nothing to run.

mod laws;

pub use crate::object_sources::laws::{objects_are_code_of_sources, objects_run_as_meant};
