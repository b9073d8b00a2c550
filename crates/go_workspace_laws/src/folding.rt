//! What code takes an expression for is what the check makes of it: constants have the values that they have there. Laws, with nothing to run.
//!
//! The Go specification, "Constant expressions".

mod laws;

pub use crate::folding::laws::{
    constants_are_folded, expressions_are_folded, expressions_are_typed, sample_parts,
};
