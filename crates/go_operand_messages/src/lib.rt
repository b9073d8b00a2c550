//! What is said of operands that do not fit, of constants that are none, of forms of Go that are not supported, and of declarations of types.
#![tactic(auto)]

mod constants;
mod initial;
mod operators;
mod overflow;
mod types;
mod unsupported;

pub use constants::of_constant;
pub use operators::of_operands;
pub use types::of_type;
pub use unsupported::of_unsupported;
