//! Instructions of stack code: what they are, and how they are written.
//!
//! Code works on words of 64 bits: an integer, or a boolean as 0 or 1. A function has slots for its receiver, its parameters and its local
//! variables, and a stack.

mod instruction;
mod letters;

pub use crate::instructions::instruction::{Distance, Instruction};
pub use crate::instructions::letters::{Letters, Word};
