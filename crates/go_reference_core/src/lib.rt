//! Where declarations are used, in all files of a snapshot.
//!
//! The Go specification, "Declarations and scope", "Qualified identifiers", "Selectors".
#![tactic(auto)]

mod finding;
pub mod forms;
mod laws;
pub mod outline;
mod reference;
pub mod rename;
mod sites;

pub use finding::{file_references, references};
pub use laws::defined_are_references;
pub use reference::Reference;
pub use sites::{has_declaration, is_same_declaration};

/// What the crates above name of `go_query_core`.
pub mod query_core {
    pub use go_query_core::{PackageEntry, define, doc, list};
}
