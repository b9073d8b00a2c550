//! What names, selectors and calls denote in an expression, and the rules that refuse them.
//!
//! No tree is looked at here: a name comes with its place, a selector with what stands left of its dot, a call with what is called
//! and its arguments. What names stand for, and what types there are, is asked of an environment; types, signatures, declarations
//! and paths of embedded fields are its handles.
//! The Go specification, "Operands", "Qualified identifiers", "Selectors", "Method values", "Calls", "Conversions".
#![tactic(auto)]

mod answers;
mod arguments;
mod calls;
pub mod composite;
mod conversions;
mod laws;
mod looks;
mod selectors;
mod things;

pub use answers::name_answer;
pub use arguments::{argument_of, arguments_of, fits_type, is_free, is_refused, single_rule};
pub use calls::call_answer;
pub use laws::{
    calls_are_local, first_rule_of_call, first_rule_of_name, first_rule_of_selector,
    names_are_local, own_name_decides_name, own_name_decides_selector, refused_denotes_nothing,
    selectors_are_local,
};
pub use looks::Names;
pub use selectors::{dot_of, selector_answer};
pub use things::{
    Answer, Argument, Builtin, Denoted, Dot, Exported, Found, Outcome, Selection, Stand,
};

/// What the crates above name of `go_operand_core`.
pub mod operand_core {
    pub use go_operand_core::{
        Operand, TypeForm, TypeLooks, ValueType, assignable_to, basic_under, binary, default_type,
        form_basic, increment, is_condition, refused_binary, refused_unary, unary, update,
    };
}

/// What the crates above name of `go_text_core`.
pub mod text_core {
    pub use go_text_core::{Rule, Span, add, boxed, is_digit, is_letter};
}
