//! Operands: what operators, conversions and assignments make of single values, over look-ups on types.
//!
//! An operand is a value with its type, its constant and whether it is addressable. Each call answers what becomes of operands, or the
//! rule that they break, and states the sentence of the Go specification that it keeps to. Where an operand is refused nothing is asked
//! here but [`refused_binary`] and [`refused_unary`].
#![tactic(auto)]

mod assignments;
mod conversions;
mod laws;
mod operators;
mod prefixes;
mod types;
mod updates;
mod values;

pub use assignments::{assignable_to, common, comparable};
pub use conversions::{convert, is_condition, length_of};
pub use laws::{
    addresses_point_back, assignability_is_a_relation, bits_are_outside, common_is_a_relation,
    comparability_is_a_relation, constants_in_constants_out, constants_of_their_types,
    conversions_are_listed, no_division_by_zero, operators_are_told_apart, own_type,
    representable_constants, updates_assign,
};
pub use operators::{binary, refused_binary};
pub use prefixes::{refused_unary, unary};
pub use types::{Operand, TypeForm, TypeLooks, ValueType};
pub use updates::{increment, update};
pub use values::{basic_under, default_type, form_basic};

/// What the crates above name of `go_constant_core`.
pub mod constant_core {
    pub use go_constant_core::Constant;
}
