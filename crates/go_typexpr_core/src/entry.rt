//! The types that a package declares, as they are written: what names of types mean at the top of a file, and which methods belong to which type.
//!
//! The Go specification, "Declarations and scope", "Qualified identifiers", "Type declarations", "Method declarations".

mod entries;
mod file_names;
mod files;
mod laws;
mod marks;
mod methods;
mod shown_packages;

pub use crate::entry::entries::{all_types, type_entries};
pub use crate::entry::file_names::{DeclaredNames, FileNames, ImportedNames};
pub use crate::entry::files::outlines;
pub use crate::entry::laws::{
    entries_are_local, entry_keys_differ, methods_are_of_the_type, names_are_in_scope,
    packages_show_their_blocks, worked_entries,
};
pub use crate::entry::marks::is_alias;
pub use crate::entry::shown_packages::ShownPackages;
