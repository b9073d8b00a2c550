//! What names and calls of functions without faults come to: laws with nothing to run.
//!
//! The Go specification, "Calls", "Method sets", "Constants", "Integer literals", "Program initialization and execution".

mod laws;

pub use crate::calls::laws::{
    calls_refer_to_theirs, constants_keep_types, declarations_keep_types, functions_keep_types,
    integers_have_values, parts_are_clear, parts_are_read, parts_tell_kept,
    references_lead_to_theirs, starts_take_nothing, typed_objects_run,
};
