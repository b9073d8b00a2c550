//! Walks over the statements of a function: one for any visitor, by the steps of its blocks, and those that find which
//! statements end a function and where `break` and `continue` may not stand.
//!
//! The Go specification, "Blocks", "Terminating statements", "Break statements" and "Continue statements".

mod ends;
mod terminating;
mod visitor;
mod walk;

pub use crate::walks::ends::{lines_have_break, lines_loop_faults};
pub use crate::walks::terminating::{Panics, are_terminating, is_blank_target};
pub use crate::walks::visitor::Visitor;
pub use crate::walks::walk::visit_lines;
