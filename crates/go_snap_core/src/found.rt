//! Files of snapshots.

use go_emit_core::package_core::{Part, PartFile};
use go_graph_core::SourceFile;
use go_tree_nodes::File;

/// A file of an assembled package of a snapshot.
#[derive(Clone, Copy)]
pub struct FileIn<'s> {
    /// The part of the package.
    pub part: &'s Part,
    /// The number of the file in its package, in byte order of name, from 0.
    pub number: usize,
    /// Its name and its text.
    pub source: &'s SourceFile,
    /// Its tree.
    pub tree: &'s File,
    /// What stands in it, by the part: what its occurrences have, its faults, and the locals of its functions.
    pub made: &'s PartFile,
}
