//! The paths of the packages that a package imports and reaches, as far as another one may import them.
//!
//! `go help internal`, "Internal Directories".

mod paths;

pub use crate::shown::paths::{deps_shown, imports_shown};
