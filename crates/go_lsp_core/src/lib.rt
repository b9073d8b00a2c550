//! Positions, edits and framed messages as the Language Server Protocol has them.
#![tactic(auto)]

pub mod edits;
pub mod frames;
pub mod positions;
