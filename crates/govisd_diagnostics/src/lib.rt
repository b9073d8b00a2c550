//! What an editor is told without being asked, and what it may change: faults, quick fixes, renames.
#![tactic(auto)]

mod fixing;
mod publishing;
mod refusing;
mod related;
mod remarks;
mod renaming;

pub use fixing::code_actions;
pub use publishing::publish;
pub use renaming::{prepare_rename, rename};
