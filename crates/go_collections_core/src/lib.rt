//! Names with values, names found by their spelling, and lists that share what is the same.
#![tactic(auto)]

pub mod name_table;
pub mod persistent_list;
pub mod spelling_index;

/// What the crates above name of `go_text_core`.
pub mod text_core {
    pub use go_text_core::{Name, Rule, add, boxed, is_blank, is_exported, same_id};
}
