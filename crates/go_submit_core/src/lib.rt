//! What sessions submit, and what was published of it: the packages of one module within the limits, submissions with their tickets, and the list of
//! published batches, each with the snapshot of all that was published up to it, by pieces that it shares with the batch before.
#![tactic(auto)]

mod batches;
pub mod history;
mod kept;
mod laws;
mod list;
mod module_list;
mod module_tree;
mod modules;
mod piece;
mod published;
mod submission;
mod tree_rules;

pub use batches::Batches;
pub use kept::KeptBatch;
pub use laws::{batches_replace, last_trees, one_worker, published_trees, submissions_replace};
pub use module_tree::ModuleTree;
pub use modules::{add_module, add_trees, is_among, is_same_module};
pub use published::PublishedBatch;
pub use submission::{Submission, Submissions, Ticket, has_ticket};
pub use tree_rules::{MAX_FILES, MAX_PACKAGES, MAX_TEXT, is_source_name};

/// What the crates above name of `go_package_core`.
pub mod package_core {
    pub use go_package_core::package_part::{Part, PartInput, Parts};
}

/// What the crates above name of `go_snap_core`.
pub mod snap_core {
    pub use go_snap_core::{SharedSnapshot, Snapshot};
}
