//! What is seen of packages from one part to the next: tables of what some packages tell, which grow by what an input reaches, so that of the packages
//! of a batch each is added once, and not once for each package that reaches it.
//!
//! The Go specification, "Packages", "Import declarations".

mod laws;
mod sight;

pub use crate::seen::laws::inputs_are_local;
pub use crate::seen::sight::{Compiled, Sight};
