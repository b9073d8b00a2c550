//! A name that is put in place of an identifier: it has a declaration there exactly where the identifier's context gives it one. Laws, with nothing
//! to run.
//!
//! The Go specification, "Declarations and scope", "Selectors", "Qualified identifiers".

mod laws;

pub use crate::completions::laws::{
    blank_never_fits, blocks_stay, identifiers_can_be_respelled, names_fit,
};
