//! Values of constants: integers, booleans and texts, and what operators make of them.
//!
//! An integer constant has 64 bits with a sign: what lies outside is out of range, and whoever asks says by which rule. A text is
//! bytes, shared by all constants that have it, and by those that are joined of it. The Go specification, "Constants", "Constant expressions", "Arithmetic operators",
//! "Comparison operators", "Logical operators", "String concatenation".
#![tactic(auto)]

mod ints;
mod joints;
mod laws;
mod left;
mod operators;
mod parts;
mod pieces;
mod texts;
mod values;

pub use laws::{
    differences_are_exact, division_truncates, negation_is_exact, orders_are_total,
    products_are_exact, sums_are_exact, texts_are_joined, texts_by_bytes, truth_tables,
    unknown_stays_unknown,
};
pub use operators::{binary, unary};
pub use texts::ConstantText;
pub use values::{Constant, is_zero, natural, text_length};

/// What the crates above name of `go_text_core`.
pub mod text_core {
    pub use go_token_core::text_core::{Rule, Span, add, is_blank};
}
