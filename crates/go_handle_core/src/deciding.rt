//! Decisions about types as functions on lists and terms, for contracts that hold their code to a function in place of a relation.
//!
//! It has no code to run. Each law says that a function answers exactly what a relation of the crates below holds of, so that code which is proved
//! by the relation has the function's answer. The Go specification, "Type identity", "Conversions", "Selectors", "Implementing an interface",
//! "Assignability".

mod laws;

pub use crate::deciding::laws::{
    assignability_is_decided, convertibility_is_decided, decisions_are_local, identity_is_decided,
    implementation_is_decided, rules_are_decided, selections_are_decided, selectors_are_decided,
    worked_members, worked_types,
};
