//! How the declarations of a workspace are written.
#![tactic(auto)]

mod offsets;
mod search;
mod single;
mod spelling;

pub use single::{site_place, site_text_of};
pub use spelling::SiteSpelling;

/// What the crates above name of `go_graph_core`.
pub mod graph_core {
    pub use go_graph_core::{Package, PackageSource, SourceFile, Workspace, assemble};
}
