//! What may be asked of a snapshot: where an identifier that is used is declared, which names could stand in its place, which packages a package could
//! import, and what a package declares, with its doc comments.
//!
//! Nothing is checked again for it, and a snapshot keeps nothing more for it.
#![tactic(auto)]

mod completing;
mod defining;
mod documenting;
mod entry;
mod listing;
mod parts;

pub use completing::complete;
pub use defining::define;
pub use documenting::{PackageDoc, doc};
pub use entry::PackageEntry;
pub use listing::{Listing, list};

/// What the crates above name of `go_complete_core`.
pub mod complete_core {
    pub use go_complete_core::spelling::{
        checked_packages_have_contexts, checked_packages_keep_contexts,
    };
}

/// What the crates above name of `go_package_core`.
pub mod package_core {
    pub use go_complete_core::package_core::{Part, PartFile, part_has_occurrences};
}

/// What the crates above name of `go_report_core`.
pub mod report_core {
    pub use go_complete_core::report_core::{Answer, Site};
}

/// What the crates above name of `go_snap_core`.
pub mod snap_core {
    pub use go_complete_core::snap_core::{PlacedFault, Snapshot, package_of};
}
