//! Reading expressions (the Go specification, "Expressions").

mod after;
mod expr_list;
mod expr_reader;
mod literal;
mod operators;

pub use crate::exprs::expr_list::exprs;
pub use crate::exprs::expr_reader::expr;
