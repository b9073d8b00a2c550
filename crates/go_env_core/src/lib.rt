//! What a place of a package sees: the one environment in which its expressions are judged.
//!
//! It joins what names mean where they stand, the faces of declarations, the tables of types, the fields of struct types and the types
//! that are written inside functions.
//! The Go specification, "Declarations and scope", "Qualified identifiers", "Composite literals".
#![tactic(auto)]

mod copies;
mod field_index;
mod fields;
mod found;
mod here;
mod laws;
mod meaning;
mod recall;
mod recalling;
mod scene;
mod surveys;
mod ways;

pub use here::{Here, stand};
pub use laws::{
    fields_are_members, names_are_local, names_stand_for_declarations, parts_are_looks,
    universe_is_this,
};
pub use meaning::{Meaning, outer_names};
pub use recall::{Recall, TypesOf};
pub use recalling::Recalling;
pub use scene::Scene;

/// What the crates above name of `go_declared_core`.
pub mod declared_core {
    pub use go_declared_core::{Face, FaceTable, WrittenFaces, hold, lend, written_faces};
}

/// What the crates above name of `go_handle_core`.
pub mod handle_core {
    pub use go_declared_core::handle_core::{
        Decl, Home, SignatureRef, TypeRef, TypesHere, is_identical,
    };
}
