//! Snapshots that are kept: by pieces, which a later snapshot shares where nothing changed.

mod kept;
mod lists;

pub use crate::history::kept::KeptSnapshot;
