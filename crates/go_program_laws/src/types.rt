//! The variables, parameters and types of functions of packages of which nothing is reported, against what code takes them for: laws with nothing to run.
//!
//! The Go specification, "Declarations and scope", "Variables", "Function types", "Variable declarations", "Short variable declarations".

mod laws;

pub use crate::types::laws::{
    functions_fit, locals_are_typed, parameters_are_typed, sources_fit, types_are_over,
    variables_are_declared,
};
