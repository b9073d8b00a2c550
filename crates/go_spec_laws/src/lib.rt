//! Laws in the words of the Go specification; no code.
#![tactic(auto)]

pub mod ending;
pub mod front;
