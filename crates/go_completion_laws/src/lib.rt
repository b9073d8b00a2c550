//! Completion over whole workspaces: a name completes an identifier exactly where, once it stands in the identifier's place, the workspace has a snapshot
//! that gives it a declaration there. Laws, with nothing to run.
//!
//! The Go specification, "Declarations and scope", "Selectors", "Qualified identifiers", "Composite literals".
#![tactic(auto)]

mod laws;

pub use laws::{completions_are_exact, reached_parts_agree};
