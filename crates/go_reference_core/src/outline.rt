//! What a file declares outside functions, with the fields and methods that its types write, and where each declaration stands.
//!
//! The Go specification, "Declarations and scope", "Struct types", "Interface types".

mod items;
mod laws;
mod members;
mod tops;

pub use crate::outline::items::{Entry, EntryKind};
pub use crate::outline::laws::{names_are_declared, names_stand_within};
pub use crate::outline::tops::entries;
