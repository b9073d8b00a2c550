//! Type expressions as terms, what names of types mean, and what aliases mean.
#![tactic(auto)]

pub mod aliases;
pub mod entry;
pub mod written;

/// What the crates above name of `go_path_core`.
pub mod path_core {
    pub use go_path_core::ImportPath;
}

/// What the crates above name of `go_type_core`.
pub mod type_core {
    pub use go_type_core::{TypeTable, TypeTerm};
}
