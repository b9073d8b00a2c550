//! That what queries answer is there and is complete; no code.
#![tactic(auto)]

pub mod completions;
pub mod declarations;
pub mod definitions;
