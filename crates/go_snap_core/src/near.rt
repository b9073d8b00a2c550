//! What a check looks at in other packages: an expression and a file ask of the table of types what they reach alone. Laws, with nothing to run.
//!
//! The Go specification, "Properties of types and values", "Expressions", "Packages".

mod laws;

pub use crate::near::laws::{
    expressions_look_nearby, files_look_nearby, functions_look_nearby, other_types_do_not_count,
    packages_look_nearby, pieces_look_nearby, scenes_look_nearby, tables_look_nearby,
};
