//! What functions of workspaces of which nothing is reported are asked beside their check, and the runs of programs of functions that fit: laws with nothing to run.
//!
//! The Go specification, "Packages", "Program initialization and execution".

mod laws;

pub use crate::faultless::laws::{
    calls_are_served, constants_are_served, functions_are_served, integers_are_given,
    methods_are_declared, methods_give_theirs, names_are_read, parts_are_among,
    parts_are_seen_alike, parts_show_their_types, reached_programs_run,
};
