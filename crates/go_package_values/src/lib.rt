//! What the declarations of a package outside functions are: types, functions and methods, constants and variables.
//!
//! Constants, and variables without a written type, are what their initialisers make them, in the order of their needs. The Go
//! specification, "Constant declarations", "Variable declarations", "Package initialization".
#![tactic(auto)]

mod laws;
mod package;
mod stage;

pub use laws::places_agree;
pub use package::package_values;
