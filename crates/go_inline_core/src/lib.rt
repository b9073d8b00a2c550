//! Types that are written inside functions and in initialisers, by their places: made before a function is checked, so that all that is known of
//! them is lent from one place.
//!
//! The Go specification, "Types", "Declarations and scope", "Composite literals".
#![tactic(auto)]

mod checker;
mod function;
mod ground;
mod laws;
mod listing;
mod making;
mod repeated;
mod scoped;
mod types;

pub use function::{function_types, initialiser_types};
pub use ground::Ground;
pub use laws::{any_table_tells, types_are_found};
pub use repeated::repeated_params;
pub use scoped::Scoped;
pub use types::{InlineType, InlineTypes};

/// What the crates above name of `go_block_core`.
pub mod block_core {
    pub use go_names_core::block_core::{Blocks, DeclKind, Target};
}

/// What the crates above name of `go_names_core`.
pub mod names_core {
    pub use go_names_core::{Meant, OpenNames, Outside};
}

/// What the crates above name of `go_scope_core`.
pub mod scope_core {
    pub use go_names_core::scope_core::{InScope, Scopes};
}
