//! What the check of packages says of the sources of their code: laws with nothing to run.
//!
//! The Go specification, "Operators", "Calls", "Conversions", "Assignment statements", "Return statements", "Function declarations", "Terminating statements".

mod laws;

pub use crate::checked_sources::laws::{
    arguments_are_over_parameters, assignments_are_over_one, conditions_are_over_bool,
    conversions_keep_words, declarations_are_over_one, functions_end_well,
    functions_name_no_methods, names_are_no_methods, objects_run_as_typed, operators_fit,
    pieces_are_clear, returns_are_over_results, sources_end_well, types_keep_basics,
    updates_are_over_int, variables_are_over_one_word, variables_have_types,
};
