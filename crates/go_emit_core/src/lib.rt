//! The object of a package, its functions as they run, with their references; and the objects of all packages of a workspace.
//!
//! What each name of a body comes to is taken from what the check of the package gave its occurrences; code itself is `go_code_core`'s.
//!
//! The Go specification, "Packages", "Function declarations", "Method declarations".
#![tactic(auto)]

mod functions;
mod imports;
mod laws;
pub mod lookup;
pub mod meaning;
mod object;
mod tables;

pub use laws::{
    bodies_are_between_braces, calls_name_their_own, imports_pass, objects_are_of_faultless,
    objects_are_of_their_parts, one_object, sample_is_emitted,
};
pub use object::{emit, emit_all};

/// What the crates above name of `go_declared_core`.
pub mod declared_core {
    pub use go_declared_core::positions_are_exact;
}

/// What the crates above name of `go_package_core`.
pub mod package_core {
    pub use go_package_core::FileAnswers;
    pub use go_package_core::package_part::{
        Part, PartFile, PartInput, Parts, compile_over, compile_part, one_part,
        part_has_occurrences, same_imports,
    };
    pub use go_package_core::prepare::{loops_are_faults, values_are_as_written};
}
