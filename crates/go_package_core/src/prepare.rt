//! What is made of a package before its files are checked: its types, what is written of its declarations, and the types that its
//! initialisers and its functions write; and what its declarations are, by what is written alone.
//!
//! The Go specification, "Declarations and scope", "Types", "Package initialization".

mod aliases;
mod inlines;
mod laws;
mod package_at;
mod ready;
mod types;

pub use crate::prepare::aliases::package_aliases;
pub use crate::prepare::inlines::{package_functions, package_initial};
pub use crate::prepare::laws::{
    declarations_have_one_table, loops_are_faults, values_are_as_written,
};
pub use crate::prepare::package_at::{PackageAt, package_outlines};
pub use crate::prepare::ready::{Ready, make_ready};
pub use crate::prepare::types::{OwnTypes, package_types};
