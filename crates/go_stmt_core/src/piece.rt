//! The pieces of functions and of specifications: what their identifiers and calls have, their faults, and what the names stand for that
//! they declare, in any environment.
//!
//! No blocks are known here: names are looked up in the environment, and which of the names of a short declaration are new is told.

mod constants;
mod given;
mod headers;
mod laws;
mod pieces;
mod returns;
mod shorts;
mod starts;
mod statements;
mod targets;
mod types;
mod variables;

pub use crate::piece::headers::{check_header, function_results, has_named_results};
pub use crate::piece::laws::{
    names_have_values, outer_is_local, pieces_are_local, pieces_have_occurrences,
    pieces_look_at_names, worked_pieces,
};
pub use crate::piece::pieces::{check_outer_spec, check_simple, check_spec};
pub use crate::piece::returns::check_returned;
pub use crate::piece::shorts::check_short;
pub use crate::piece::statements::check_condition;
pub use crate::piece::types::variable;
