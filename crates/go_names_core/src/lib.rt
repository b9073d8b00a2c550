//! The names of a function: a walk that checks its pieces with the names that are open there.
//!
//! The Go specification, "Blocks" and "Declarations and scope".
#![tactic(auto)]

mod checker;
mod declaring;
mod function;
mod idents;
mod laws;
mod look;
mod meaning;
mod walker;

pub use checker::Checker;
pub use declaring::{NewNames, declare, names_of, names_of_header};
pub use function::{Checked, check_function};
pub use idents::{header_idents, listed_idents, signature_idents};
pub use laws::{open_names_are_bound, uses_are_occurrences, worked_names};
pub use look::OpenNames;
pub use meaning::{Meant, Outside};

/// What the crates above name of `go_block_core`.
pub mod block_core {
    pub use go_scope_core::block_core::{
        Binding, Blocks, DeclKind, DeclRef, Imported, Target, import_specs,
    };
}

/// What the crates above name of `go_local_core`.
pub mod local_core {
    pub use go_local_core::Fault;
}

/// What the crates above name of `go_scope_core`.
pub mod scope_core {
    pub use go_scope_core::{InScope, Scopes};
}

/// What the crates above name of `go_scope_stack`.
pub mod scope_stack {
    pub use go_local_core::scope_stack::DeclId;
}
