//! What imports that a package may lack would come to: which packages it could import, and why it could not import the others.
//!
//! The Go specification, "Import declarations"; `go help gopath`, "Internal Directories".

mod judging;
mod laws;
mod listing;
mod reaching;
mod standing;

pub use crate::list::judging::{judge_import, number_of};
pub use crate::list::laws::added_imports_are_judged;
pub use crate::list::listing::importable;
