//! The faults of the types that a package declares, at their places in its files: of types that reach themselves, of fields and methods, of
//! receivers.
//!
//! The Go specification, "Type declarations", "Struct types", "Interface types", "Method declarations".

mod entries;
mod places;
mod receivers;

pub use crate::type_faults::entries::{WrittenTypes, type_faults};
pub use crate::type_faults::places::PackageFault;
