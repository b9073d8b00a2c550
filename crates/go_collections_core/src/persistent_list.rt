//! Lists in pieces that several lists share.

mod list;
mod marks;
mod piece;

pub use crate::persistent_list::list::Pieces;
