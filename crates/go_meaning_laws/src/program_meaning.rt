//! That programs run as their sources mean: a law on what `run` of `go_machine_core::runs` answers, with nothing to run.

mod laws;

pub use crate::program_meaning::laws::programs_run_as_meant;
