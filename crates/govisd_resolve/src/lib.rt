//! The programs of govisd as functions over a reader and a writer.
#![tactic(auto)]

mod alone;
mod failing;
mod input;
mod laws;
mod output;
mod run;
pub mod told_lines;

pub use laws::one_input;
pub use output::write_report;
pub use run::{ResolveEnd, run_resolve};
