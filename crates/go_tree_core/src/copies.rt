//! Copies of files: of the same tree, and with another spelling of one identifier.

mod copier;
mod copies;
mod file_copies;
mod stmt_copies;

pub use crate::copies::file_copies::{copy, respelled};
