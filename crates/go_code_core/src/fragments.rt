//! Of which functions stack code is made, and what their names and constants come to.
//!
//! Code is made of functions that work on values over `int` and `bool` alone. What names come to is an argument (`CodeNames`), so that code is
//! made alike of a function in any package.
//!
//! The Go specification, "Expressions", "Statements", "Constant expressions".

mod constants;
mod fragment;
mod inside;
mod names;
mod operators;
mod slots;
mod targets;

pub use crate::fragments::constants::{called, folded};
pub use crate::fragments::fragment::{expr_gives, is_method, over};
pub use crate::fragments::inside::in_fragment;
pub use crate::fragments::names::{CodeNames, ConstantWord, Frame, Gives, Meaning};
pub use crate::fragments::operators::{
    binary_instruction, step_operator, unary_instruction, update_operator,
};
pub use crate::fragments::slots::{slot_of, slots_of};
pub use crate::fragments::targets::{Target, declared_target, target_of};
