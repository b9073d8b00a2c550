//! What expressions denote, what each of their identifiers and calls has, and the faults of their parts.
#![tactic(auto)]

mod elements;
mod laws;
mod lists;
mod looks;
mod names;
mod notes;
mod operators;
mod places;
mod things;
mod types;
mod walk;

pub use laws::{
    denoted_by_needed_names, expressions_are_local, expressions_are_seen_alike, own_name_decides,
    sample_expressions, uses_are_occurrences,
};
pub use lists::{check_exprs, is_list};
pub use looks::Exprs;
pub use names::check_type_name;
pub use notes::{note_fault, note_member};
pub use places::{is_call, is_name, left_place, start, whole};
pub use things::{Notes, Use};
pub use types::{check_signature, check_type};
pub use walk::{check_called, check_expr, check_operand};

/// What the crates above name of `go_denote_core`.
pub mod denote_core {
    pub use go_denote_core::composite::{Keys, LiteralField, Literals, first_named, keys_among};
    pub use go_denote_core::{
        Argument, Builtin, Denoted, Dot, Exported, Found, Names, Outcome, Selection, Stand,
        argument_of, arguments_of, dot_of, fits_type, is_free, is_refused, name_answer,
    };
}

/// What the crates above name of `go_local_core`.
pub mod local_core {
    pub use go_local_core::Fault;
    pub use go_local_core::walks::is_blank_target;
}

/// What the crates above name of `go_operand_core`.
pub mod operand_core {
    pub use go_denote_core::operand_core::{
        Operand, TypeForm, TypeLooks, ValueType, assignable_to, basic_under, default_type,
        form_basic, increment, is_condition, update,
    };
}

/// What the crates above name of `go_scope_stack`.
pub mod scope_stack {
    pub use go_local_core::scope_stack::{DeclId, NameList};
}
