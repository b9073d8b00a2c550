//! The local names of a function: its blocks, what is checked in them, and what each name denotes at each place.
//!
//! The Go specification, "Blocks" and "Declarations and scope".
#![tactic(auto)]

mod laws;
pub mod walks;

use go_tree_nodes::text_core::Rule;
pub use laws::{one_is_denoted, one_table, short_is_one_definition, worked_functions};

/// A rule that is broken, and the offset in bytes where it is.
#[derive(Clone, Copy, Debug, PartialEq, Eq)]
pub struct Fault {
    pub offset: usize,
    pub rule: Rule,
}

/// What the crates above name of `go_scope_stack`.
pub mod scope_stack {
    pub use go_scope_stack::{DeclId, NameList, ShortName};
}
