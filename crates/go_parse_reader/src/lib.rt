//! Types and expressions in front of some tokens.
#![tactic(auto)]

pub mod exprs;
pub mod types;
