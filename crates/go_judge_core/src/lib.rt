//! What the expressions of a checked file denote, by the very rules of the check, of what is kept of its package; how types are written where they stand; and
//! which value is the first that does not fit. No file is checked again.
//!
//! The Go specification, "Declarations and scope", "Types", "Expressions", "Assignability".
#![tactic(auto)]

mod breaking;
mod checked;
mod fitting;
mod held;
mod judging;
mod known;
mod locals;
mod nodes;
mod pieces;
mod steps;
mod writing;

pub use checked::CheckedFile;
pub use fitting::Given;
pub use held::{Judged, operand_type};
pub use judging::Setting;
pub use nodes::{Extent, beginning, extent_of, inside, literal_round, marked};
pub use pieces::{Piece, exprs_of};
pub use writing::TypeText;
