//! Which names fit at a place of a file: alone, by what is in scope there, and behind the name of a package, by what the package shows.
//!
//! The Go specification, "Declarations and scope", "Operands", "Qualified identifiers", "Exported identifiers".

mod alone;
mod behind;
mod listing;
mod things;

pub use crate::fitting::alone::{fits_alone, names_alone, package_named};
pub use crate::fitting::behind::names_behind;
