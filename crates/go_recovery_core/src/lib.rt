//! What is said of a text that has no tree, and a text that parses in its place.
#![tactic(auto)]

pub mod mend;
pub mod standin;
