//! The parts of the packages of a workspace: each is made once, behind those of the packages that it imports, from what these tell. A part that was
//! there before is kept where its input is the same.
//!
//! The Go specification, "Packages", "Import declarations".

mod inputs;
mod kept;
mod making;
mod marks;
mod search;
mod told;

pub use crate::make::inputs::{input_of, input_over};
pub use crate::make::kept::{earlier_part, is_told_again};
pub use crate::make::making::{parts_again, parts_of};
pub use crate::make::search::{package_of, part_of};
pub use crate::make::told::Told;
