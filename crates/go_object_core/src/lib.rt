//! Objects: the functions of a package as they run, and how they are listed.
#![tactic(auto)]

pub mod instructions;
mod lines;
mod object;
mod words;

pub use lines::{Spelling, listing};
pub use object::{FunctionCode, Object};
