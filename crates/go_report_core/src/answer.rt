//! What is kept of a checked package: answers and locals that own what they hold, the faces that the package shows to those that import it, and the
//! faults of a file that are asked of the package as a whole.
//!
//! The Go specification, "Declarations and scope", "Exported identifiers".

mod answers;
mod faces;
mod laws;
mod locals;
mod outer;
mod shared;
mod site;

pub use crate::answer::answers::{Answer, answers_of};
pub use crate::answer::faces::{held_faces, shown_faces};
pub use crate::answer::laws::{
    exported_names_show_their_faces, hidden_declarations_do_not_count, outer_faults_are_these,
    shown_faces_are_exported, worked_package,
};
pub use crate::answer::locals::{HeldLocal, hold_local};
pub use crate::answer::outer::{OuterAt, outer_faults};
pub use crate::answer::shared::HeldValues;
pub use crate::answer::site::Site;
