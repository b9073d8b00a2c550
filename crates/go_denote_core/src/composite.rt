//! Composite literals of struct types: the rules of their keys, their elements and of a literal as a whole.
//!
//! No tree is looked at here: a literal comes with its type, with which of its elements have keys and with how many there are, a key
//! with its spelling and whether another key is spelled the same, an element with what it denotes. What fields a struct type has, as
//! the place sees them, is asked of an environment.
//! The Go specification, "Composite literals".

mod keys;
mod laws;
mod literals;
mod looks;
mod marks;
mod repeats;
mod things;

pub use crate::composite::keys::key_answer;
pub use crate::composite::laws::{
    elements_fit, fields_by_name, first_rule_of_key, first_rule_of_literal, keys_are_local,
    keys_of_elements, literals_are_local, marks_tell_keys, own_name_decides_key, repeated_names,
    rules_of_literals, targets_of_elements, types_of_literals, worked_literals,
};
pub use crate::composite::literals::{
    element_target, keys_among, literal_denotes, literal_mode, literal_rule, literal_type, misfits,
};
pub use crate::composite::looks::Literals;
pub use crate::composite::marks::{first_named, key_marks};
pub use crate::composite::things::{KeyAnswer, KeyMark, Keys, LiteralField, Mode, NamedField};
