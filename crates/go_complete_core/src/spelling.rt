//! What an identifier has under another spelling: its context stays as it was, in a piece of a function, in the files of a package, and in packages
//! that have been checked. Laws, with nothing to run.
//!
//! An occurrence has what the rule of its context gives for its own spelling. Here are the laws that say that this context does not depend
//! on the spelling, through all that names mean: in an expression, in the initialisers of a package, which need one another, and in the
//! functions of its files. So what each name would have at a place can be answered from the context of this place alone.
//!
//! The Go specification, "Declarations and scope", "Selectors", "Package initialization".

mod file_laws;
mod package_laws;
mod piece_laws;

pub use crate::spelling::file_laws::{
    checked_functions_stay, file_initialisers_stay, outer_types_in_files_stay, package_bodies_stay,
    package_initialisers_stay, types_stay,
};
pub use crate::spelling::package_laws::{
    checked_packages_have_contexts, checked_packages_keep_contexts,
};
pub use crate::spelling::piece_laws::{
    behind_dots_no_names, faces_are_as_ever, function_contexts_stay, initial_contexts_stay,
    needed_stays, outer_types_stay, piece_contexts_stay, untouched_stays,
};
