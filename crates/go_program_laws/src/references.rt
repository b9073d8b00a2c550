//! The functions to which references of workspaces lead, with nothing to run.
//!
//! The Go specification, "Calls", "Function declarations".

mod laws;

pub use crate::references::laws::{
    declarations_are_placed, declared_functions_are_own, functions_are_of_parts,
    functions_have_numbers, functions_take_words, headers_are_of_signatures,
    headers_give_their_results, methods_are_kept, methods_are_of_parts, names_lead_to_no_methods,
    own_callees_take_words, own_functions_are_declared, own_references_take_words,
    own_signatures_are_theirs, parts_of_a_path_are_one, programs_run, reached_are_in_program,
    reached_are_inside, reached_take_words, receivers_take_words, references_are_kept,
    references_lead_to_functions, seen_are_in_program, signatures_are_alike,
};
