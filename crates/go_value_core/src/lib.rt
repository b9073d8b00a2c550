//! What the constants and variables of a package without a written type need, and what their initialisers make them.
//!
//! A constant, and a variable whose type is not written, needs the declarations of its package that the names of its initialiser mean at the
//! top of its file, but for those in the elements of composite literals. A constant whose needs lead back to it is defined through itself.
//! The Go specification, "Constant declarations", "Variable declarations", "Package initialization".
#![tactic(auto)]

mod back;
mod idents;
mod initial;
mod laws;
mod needs;
mod placed;
mod specs;
mod through;
mod type_idents;

pub use initial::initial_value;
pub use laws::{
    bodies_do_not_count, needed_names_decide, needs_decide, package_has_one_table, sample_values,
    specifications_are_alike, through_itself_has_none,
};
pub use needs::package_needs;
pub use placed::{PlacedDecl, placed_decls};
pub use through::through_itself;
