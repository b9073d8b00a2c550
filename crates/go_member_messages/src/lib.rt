//! What is said of selectors, and of composite literals and their keys.
#![tactic(auto)]

mod literals;
mod members;

pub use literals::of_literal;
pub use members::of_selector;

/// What the crates above name of `go_case_core`.
pub mod case_core {
    pub use go_case_core::Case;
}

/// What the crates above name of `go_judge_core`.
pub mod judge_core {
    pub use go_case_core::judge_core::{CheckedFile, Piece};
}
