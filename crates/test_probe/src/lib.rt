//! What the layers of govisd answer to texts: tokens, trees, runs of `govisd resolve`, names, packages, blocks.
//!
//! The kinds of answers are at the head of the table of cases (`data/cases.txt` of `test_cases`).
#![tactic(auto)]

mod answers;
mod blocks;
mod keys;
mod plans;
mod runs;
mod scopes;
mod shapes;
pub mod show;
mod table;
mod tokens;
mod trees;
mod words;
mod workspaces;

pub use answers::add_of_file;
