//! From files to packages: a workspace of packages, and the assembly of the files of one.
//!
//! A package is "constructed from one or more source files that together declare constants, types, variables
//! and functions belonging to the package" (the Go specification, "Packages"). Its files have one path, and
//! one name in their package clauses.
#![tactic(auto)]

mod assembly;
mod import_laws;
mod imports;
mod laws;
mod path_table;
mod planning;
mod source;
mod workspace;

pub use assembly::{KFault, Package, assemble};
pub use import_laws::{
    cycles_are_assembled, cycles_are_decided, each_import_has_an_outcome,
    each_workspace_has_a_plan, imports_are_occurrences, one_number, one_outcome, one_target,
};
pub use imports::{ImportAt, ImportOutcome};
pub use laws::one_assembly;
pub use planning::{Plan, plan_imports};
pub use source::SourceFile;
pub use workspace::{PackageSource, Workspace, read_files};

/// What the crates above name of `go_collections_core`.
pub mod collections_core {
    pub use go_collections_core::name_table::NameTable;
    pub use go_collections_core::persistent_list::Pieces;
}

/// What the crates above name of `go_parse_core`.
pub mod parse_core {
    pub use go_parse_core::{ParseError, Parsed, SynFault, one_rule, one_tree, parse, tree_of};
}

/// What the crates above name of `go_path_core`.
pub mod path_core {
    pub use go_path_core::ImportPath;
}
