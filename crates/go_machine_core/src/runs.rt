//! Runs of programs: from the objects of packages to what the program prints and how it ends.
//!
//! The Go specification, "Program initialization", "Program execution".

mod laws;
mod outcome;
mod running;

pub use crate::PanicValue;
pub use crate::link::{Place, Places};
pub use crate::runs::laws::{
    answers_are_one, imports_come_first, samples_run, spent_does_all_steps,
};
pub use crate::runs::outcome::Run;
pub use crate::runs::running::{run, run_printing};
