//! Where an identifier stands, by the tree alone: the spot at an offset of a file, and the locals that are open there.
//!
//! The Go specification, "Blocks", "Declarations and scope", "Selectors", "Qualified identifiers", "Composite literals".
#![tactic(auto)]

mod exprs;
mod file;
mod laws;
mod names;
mod pieces;
mod places;
mod search;
mod spot;
mod types;
mod walk;

pub use file::spot_in_file;
pub use laws::{names_are_occurrences, open_names_are_walked, spots_decide};
pub use spot::{FoundSpot, LiteralOf, Spot};

/// What the crates above name of `go_denote_core`.
pub mod denote_core {
    pub use go_expr_core::denote_core::Stand;
}

/// What the crates above name of `go_operand_core`.
pub mod operand_core {
    pub use go_expr_core::operand_core::Operand;
}

/// What the crates above name of `go_scope_stack`.
pub mod scope_stack {
    pub use go_expr_core::scope_stack::DeclId;
}
