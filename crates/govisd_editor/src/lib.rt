//! The Language Server Protocol over a module: an editor's texts, what is wrong in them, and what it asks of them. One process serves one editor, on one
//! thread. Nothing is written into the folder.
//!
//! The Language Server Protocol, version 3.17.
#![tactic(auto)]

mod answers;
pub mod host;
mod requests;
mod serving;

pub use govisd_documents::Disk;
pub use serving::{EditorEnd, run_editor};
