//! What a package tells the packages that reach it by imports, and what a package sees by what others tell.
//!
//! A summary is compared with an earlier one of its package: where they are the same, nothing has to be checked again that the package
//! does not declare itself. Of many packages each reaches many: what they tell is listed once, in the order in which they are made, and each
//! names the places of those that it reaches. The Go specification, "Import declarations", "Exported identifiers".
#![tactic(auto)]

pub mod alike;
mod laws;
mod list;
mod piece;
mod reached;
pub mod shown;
mod summary;
mod view;

pub use laws::{
    hidden_names_are_known, hidden_names_do_not_count, views_tell_nothing_else,
    views_tell_what_summaries_do,
};
pub use list::SummaryList;
pub use reached::ReachedSummaries;
pub use summary::{Summary, import_view, summarize};
pub use view::{View, view_of};

/// What the crates above name of `go_declared_core`.
pub mod declared_core {
    pub use go_declared_core::{
        DeclaredFace, Face, FaceTable, PackageFaces, ShownFace, TypesHere, WrittenFaces, hold,
        lend, written_faces,
    };
}

/// What the crates above name of `go_handle_core`.
pub mod handle_core {
    pub use go_declared_core::handle_core::{Decl, DeclSite, Home, SignatureRef, TypeRef, typed};
}

/// What the crates above name of `go_table_core`.
pub mod table_core {
    pub use go_table_core::{FieldTable, TypeEntry, TypeTable};
}

/// What the crates above name of `go_typexpr_core`.
pub mod typexpr_core {
    pub use go_declared_core::typexpr_core::{DeclaredNames, FileNames, ImportedNames, TypeNames};
}
