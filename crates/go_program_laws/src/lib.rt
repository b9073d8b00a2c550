//! That programs of which nothing is reported run as their sources mean; no code.
#![tactic(auto)]

pub mod calls;
pub mod checked_sources;
pub mod faultless;
pub mod references;
pub mod types;
