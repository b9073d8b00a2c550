//! Where names stand in a list, looked up by their spelling.

mod spellings;

pub use crate::spelling_index::spellings::{Spelling, Spellings};
