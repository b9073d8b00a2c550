//! The doc comments of declarations, by lines.
//!
//! A doc comment is a run of comments that ends on the line above what it is of. The texts alone are read, and no tree.
#![tactic(auto)]

mod laws;
mod lines;
mod runs;
pub mod symbol;

pub use laws::one_doc_comment;
pub use runs::doc_comment;
