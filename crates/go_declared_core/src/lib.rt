//! Faces: what the declarations of a package are to those that name them.
//!
//! A type is its type, an alias its target, a function its signature, a constant or a variable an operand. A package's faces as they are
//! written, those of other packages, which show some names and hide the others, and what names of types mean where packages have aliases.
//! The Go specification, "Declarations and scope", "Alias declarations", "Exported identifiers".
#![tactic(auto)]

mod face;
mod holding;
mod laws;
mod lending;
mod making;
mod seen;
mod settling;
mod shown;
mod table;
mod types_here;
mod written;

pub use face::Face;
pub use holding::hold;
pub use laws::{
    packages_show_their_faces, positions_are_exact, tables_show_their_packages, worked_alias_faces,
    worked_faces, written_are_local,
};
pub use lending::lend;
pub use making::written_faces;
pub use shown::{DeclaredFace, PackageFaces, ShownFace};
pub use table::FaceTable;
pub use types_here::TypesHere;
pub use written::WrittenFaces;

/// What the crates above name of `go_block_core`.
pub mod block_core {
    pub use go_block_core::{Binding, Blocks, DeclRef, Exports, Imported, NamedDecl, Target};
}

/// What the crates above name of `go_graph_core`.
pub mod graph_core {
    pub use go_block_core::graph_core::{Package, SourceFile};
}

/// What the crates above name of `go_handle_core`.
pub mod handle_core {
    pub use go_handle_core::{
        Decl, DeclSite, Home, SignatureRef, TypeParts, TypeRef, TypesHere, chosen, is_assignable,
        is_convertible, is_identical, selection, typed,
    };
}

/// What the crates above name of `go_typexpr_core`.
pub mod typexpr_core {
    pub use go_typexpr_core::entry::{
        DeclaredNames, FileNames, ImportedNames, ShownPackages, outlines,
    };
    pub use go_typexpr_core::written::TypeNames;
}
