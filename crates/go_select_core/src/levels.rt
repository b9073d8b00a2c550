//! What a selector denotes: the field or method at the shallowest depth, searched by one level of embedded fields after another.
//!
//! The Go specification, "Selectors", "Struct types".

mod level;
mod numbers;
mod operand;
mod path;
mod search;
mod trails;

pub use crate::levels::level::{Levels, Reached, expand};
pub use crate::levels::numbers::Numbers;
pub use crate::levels::operand::{Operand, behind};
pub use crate::levels::path::EmbedPath;
pub use crate::levels::search::{Selected, is_field, select, select_behind_pointer};
pub use crate::levels::trails::Trails;
