//! The check of function bodies: what each occurrence has, the faults, and what the locals are.
//!
//! The Go specification, "Blocks", "Declarations and scope", "Statements", "Terminating statements".
#![tactic(auto)]

mod body;
pub mod crossing;
mod ends;
pub mod file;
pub mod function;
mod laws;
mod locals;
mod notes;
mod panics;
mod piece_trees;
mod pieces;

pub use body::{CheckedBody, check_body};
pub use laws::{alike_rules_give_one, bodies_have_occurrences, pieces_are_of_grammar};
pub use locals::Local;
pub use notes::BodyUse;

/// What a walk through a function is made of that checks parts of it at once: the checker of its pieces, what is noted of one, and what comes of all.
pub mod walking {
    pub use crate::body::{gathered, results};
    pub use crate::notes::Note;
    pub use crate::pieces::{Pieces, RecalledPieces};
}

/// What the crates above name of `go_env_core`.
pub mod env_core {
    pub use go_env_core::{Here, Recall, Scene, TypesOf, outer_names, stand};
}

/// What the crates above name of `go_typexpr_core`.
pub mod typexpr_core {
    pub use go_typexpr_core::aliases::{Aliases, alias_loops, aliases_of, written_aliases};
    pub use go_typexpr_core::entry::{FileNames, ImportedNames, all_types, outlines, type_entries};
    pub use go_typexpr_core::written::{TypeNames, WrittenIn, write_type};
}
