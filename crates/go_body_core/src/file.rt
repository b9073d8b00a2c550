//! What the occurrences of a file have, its faults, and the locals of its functions: its imports, and its declarations one by one.
//!
//! The Go specification, "Import declarations", "Declarations and scope", "Constant declarations", "Variable declarations", "Type
//! declarations", "Function declarations".

mod alone;
mod bodies;
mod decls;
mod file_at;
mod imports;
mod joined;
mod laws;
mod notes;
mod runs;
mod spec_decl;
mod split;
mod whole;

pub use crate::file::bodies::check_bodies;
pub use crate::file::file_at::FileAt;
pub use crate::file::joined::check_file_at_once;
pub use crate::file::laws::{
    declarations_stand_alone, files_have_occurrences, functions_are_placed,
};
pub use crate::file::split::piece_bytes;
pub use crate::file::whole::{CheckedFile, check_file, file_bytes};
