//! What is true of each workspace that has been compiled, beyond what single calls say: what its occurrences have, what its objects are made of, that
//! their code is well formed, that code and check agree on constants, and that a file which stands alone is told as it is. Laws, with nothing to run.
//!
//! The Go specification, "Packages", "Declarations and scope", "Constant expressions", "Calls".
#![tactic(auto)]

mod answer_laws;
pub mod circles;
mod code_laws;
mod constant_laws;
pub mod existence;
mod file_laws;
pub mod folding;
mod object_laws;

pub use answer_laws::outcomes_are_of_occurrences;
pub use code_laws::{
    calls_are_of_the_body, functions_refer_to_their_bodies, objects_are_well_formed,
    snapshots_have_sound_objects,
};
pub use constant_laws::{constants_are_of_the_check, parts_are_fit};
pub use file_laws::{clean_is_faultless, snapshots_have_what_is_told, texts_have_snapshots};
pub use object_laws::{declarations_are_reached, objects_are_of_parts_alone, objects_are_of_trees};
