//! Drafts of sessions, runs of their packages, and what sessions ask of published batches.
#![tactic(auto)]

pub mod launches;
pub mod overlay;
pub mod queries;

/// What the crates above name of `go_query_core`.
pub mod query_core {
    pub use go_type_doc_core::query_core::{Listing, PackageDoc, PackageEntry};
}

/// What the crates above name of `go_type_doc_core`.
pub mod type_doc_core {
    pub use go_type_doc_core::{Member, MemberKind, TypeDoc};
}
