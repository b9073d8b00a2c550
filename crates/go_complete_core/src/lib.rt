//! Which names could stand in place of an identifier of a file: names alone, and names behind the name of a package.
//!
//! Nothing is checked again for it. The Go specification, "Declarations and scope", "Qualified identifiers".
#![tactic(auto)]

mod completing;
pub mod hint;
pub mod place;
pub mod spelling;
pub mod views;

pub use completing::names_there;

/// What the crates above name of `go_package_core`.
pub mod package_core {
    pub use go_package_core::package_part::{Part, PartFile, part_has_occurrences, types_of};
    pub use go_package_core::prepare::{PackageAt, package_outlines};
}

/// What the crates above name of `go_report_core`.
pub mod report_core {
    pub use go_package_core::report_core::{Answer, HeldLocal, Site};
}

/// What the crates above name of `go_snap_core`.
pub mod snap_core {
    pub use go_snap_core::make::package_of;
    pub use go_snap_core::{FileIn, PlacedFault, Snapshot};
}

/// What the crates above name of `go_summary_core`.
pub mod summary_core {
    pub use go_package_core::summary_core::{View, deps_shown, imports_shown};
}
