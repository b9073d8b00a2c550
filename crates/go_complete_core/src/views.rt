//! What a package sees of the packages that its imports come to. A type of a package that is reached and not imported may stand behind a value; a name of it
//! may not: so of the others the types are enough.
//!
//! The Go specification, "Import declarations", "Qualified identifiers".

mod laws;
mod view;

pub use crate::views::laws::imports_decide;
pub use crate::views::view::view_of_imports;
