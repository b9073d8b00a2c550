//! What stands at the head of files, and what an import that a package may lack would come to.
#![tactic(auto)]

pub mod head;
pub mod list;

/// What the crates above name of `go_graph_core`.
pub mod graph_core {
    pub use go_graph_core::{ImportOutcome, SourceFile};
}

/// What the crates above name of `go_path_core`.
pub mod path_core {
    pub use go_path_core::ImportPath;
}
