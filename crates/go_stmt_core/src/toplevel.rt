//! What the declarations of constants, variables and types outside functions have and break.
//!
//! The Go specification, "Constant declarations", "Variable declarations", "Type declarations".

mod initial;
mod types;
mod values;

pub use crate::toplevel::types::check_type_decl;
pub use crate::toplevel::values::check_value_decl;
