//! What a variable of a type has, as a package sees it, with doc comments.
//!
//! Nothing is checked again for it, and a snapshot keeps nothing more for it.
#![tactic(auto)]

mod finding;
mod laws;
pub mod members;
mod naming;
mod reading;
mod telling;

pub use crate::members::MemberKind;
pub use laws::{files_have_looks, members_are_local};
pub use telling::{Member, TypeDoc, doc_of_type};

/// What the crates above name of `go_query_core`.
pub mod query_core {
    pub use go_query_core::{Listing, PackageDoc, PackageEntry, complete, define, doc, list};
}
