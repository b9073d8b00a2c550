//! Stack code of functions: of those that work on values over `int` and `bool` alone.
//!
//! What names come to is an argument (`CodeNames`): so code is made alike of a function in any package.
//!
//! The Go specification, "Expressions", "Statements", "Constant expressions", "Order of evaluation".
#![tactic(auto)]

mod code;
mod exprs;
pub mod fragments;
mod function;
mod laws;
mod samples;
mod simples;
mod stmts;

pub use crate::fragments::{CodeNames, ConstantWord, Gives, Meaning};
pub use function::{FunctionParts, function_code};
pub use laws::{code_is_whole, jumps_stay_inside, outside_is_alone};
pub use samples::{
    calls_are_coded, choices_are_coded, constants_are_pushed, inner_blocks_have_slots,
    loops_are_coded, operands_come_in_order, operands_have_short_cuts, outsiders_are_not_coded,
    unnamed_have_slots,
};
