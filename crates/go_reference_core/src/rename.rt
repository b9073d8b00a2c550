//! Whether a name may be replaced by another one: two snapshots, one before and one after it, are compared.
//!
//! The Go specification, "Declarations and scope".

mod comparing;
mod judging;
mod names;
mod outcomes;
mod places;
mod texts;

pub use crate::rename::comparing::{Change, first_change};
pub use crate::rename::judging::judge;
pub use crate::rename::names::{Names, offsets_lie_where_moved};
pub use crate::rename::texts::are_renamed;
