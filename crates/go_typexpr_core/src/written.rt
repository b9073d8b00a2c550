//! Types as they are written: the terms of type expressions.
//!
//! Names of types are resolved by whoever knows what they mean at a place ([`TypeNames`]). The terms are not settled: a pointer to what is no type, a
//! repeated field and a field that may not be embedded stand in them as they are written. The Go specification, "Types".

mod laws;
mod names;
mod terms;

pub use crate::written::laws::written_by_names;
pub use crate::written::names::{TypeNames, WrittenIn};
pub use crate::written::terms::{write_signature, write_type};
