//! Which names may stand at a place: alone, after a dot, and as keys of literals.
#![tactic(auto)]

pub mod after_dot;
pub mod at_place;
pub mod context;
pub mod fitting;

/// What the crates above name of `go_declared_core`.
pub mod declared_core {
    pub use go_summary_core::declared_core::{TypesHere, WrittenFaces, written_faces};
}

/// What the crates above name of `go_handle_core`.
pub mod handle_core {
    pub use go_summary_core::handle_core::Home;
}
