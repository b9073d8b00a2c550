//! Which identifiers a Go file declares outside function bodies, and how a declaration is known outside its package.
//!
//! A declaration is known by the path of its package, its file, and its number among the identifiers that the file declares
//! outside function bodies: an edit of a body moves offsets, and leaves these numbers as they are.
#![tactic(auto)]

mod anchoring;
mod expr_places;
mod file_places;
mod keys;
mod laws;
mod lister;
mod places;
mod tops;
mod type_places;

pub use anchoring::{Anchor, anchors};
pub use file_places::outline;
pub use keys::{DeclKey, DeclRef, place_order};
pub use laws::{
    anchors_are_of_declarations, bodies_do_not_count, numbers_are_places, one_key_a_place,
    places_are_declared, places_are_one_to_one, sample_is_right,
};
pub use places::{DeclKind, Place, Places};
pub use tops::{DeclForm, Outline, TopDecl, kind_of_value};
pub use type_places::last_ident;

/// What the crates above name of `go_path_core`.
pub mod path_core {
    pub use go_path_core::{ImportPath, Module, may_import, overlaps};
}
