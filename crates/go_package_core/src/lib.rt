//! The check of a package: its types, what its declarations are, what each occurrence in its files has, its faults, the locals of its functions, and
//! what it shows to those that import it.
//!
//! The Go specification, "Packages", "Declarations and scope", "Types", "Package initialization".
#![tactic(auto)]

mod at_once;
mod checked;
mod files;
mod laws;
mod locals;
mod package;
pub mod package_part;
pub mod prepare;
mod split;
mod tasks;

pub use crate::prepare::PackageAt;
pub use at_once::check_package_at_once;
pub use checked::{CheckedPackage, FileAnswers};
pub use laws::{one_check, package_has_occurrences};
pub use package::check_package;

/// What the crates above name of `go_path_core`.
pub mod path_core {
    pub use go_path_core::ImportPath;
}

/// What the crates above name of `go_report_core`.
pub mod report_core {
    pub use go_report_core::answer::{Answer, HeldLocal, Site};
    pub use go_report_core::usage::reports_are_one;
}

/// What the crates above name of `go_summary_core`.
pub mod summary_core {
    pub use go_report_core::summary_core::{
        ReachedSummaries, Summary, View, deps_shown, imports_shown, view_of,
    };
}
