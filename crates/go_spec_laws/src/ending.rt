//! Which statements end a function, and where `break` and `continue` may not stand, in the words of the Go specification. There is nothing to run.
//!
//! The Go specification, "Terminating statements", "Break statements", "Continue statements".

mod laws;

pub use crate::ending::laws::{
    breaks_are_found, endings_are_terminating, functions_have_their_faults,
    lacked_returns_are_faults, strays_are_faults, worked_functions,
};
