//! What sources and programs mean, and that code does what they mean; no code.
#![tactic(auto)]

pub mod fitting_sources;
pub mod object_sources;
pub mod program_meaning;
pub mod source_meaning;
