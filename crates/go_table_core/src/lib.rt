//! Tables of defined types: what each comes to and which methods are its own; and what is assignable.
//!
//! A [`TypeTable`] is a view of several packages' types, each kept once and shared; nothing of them is copied into it. The Go specification,
//! "Type declarations", "Underlying types", "Assignability".
#![tactic(auto)]

mod alike;
mod assign;
mod entry;
mod fields;
mod indexed;
mod kinds;
mod laws;
mod table;

pub use alike::{identical_under, identical_under_but_for_tags};
pub use assign::is_named_type;
pub use entry::{DeclaredMethod, DefinedType, TypeEntry};
pub use fields::{FieldTable, StructField, StructFields, term_fields};
pub use indexed::IndexedTerm;
pub use laws::{
    adding_keeps, assignability_by_rule, assignable_is_local, assignable_to_itself,
    error_is_an_interface, nothing_is_assignable_to_no_type, reach_is_closed, underlying_is_local,
};
pub use table::{Located, PackageTypes, TypeTable};

/// What the crates above name of `go_path_core`.
pub mod path_core {
    pub use go_path_core::{ImportPath, may_import};
}
