//! Handles over tables of types: types under stars, signatures and declarations that are lent and never copied.
//!
//! They are what the rules of operands, names and selectors pass on (`go_operand_core`, `go_denote_core`).
#![tactic(auto)]

mod assignment;
mod conversion;
pub mod deciding;
mod decls;
mod here;
mod home;
mod identity;
mod implementing;
mod inside;
mod selecting;
mod signatures;
mod types;

pub use assignment::is_assignable;
pub use conversion::{is_convertible, is_type};
pub use decls::{Decl, DeclSite};
pub use here::TypesHere;
pub use home::Home;
pub use identity::is_identical;
pub use implementing::is_implementing;
pub use selecting::{chosen, selection};
pub use signatures::{SignatureRef, typed};
pub use types::{TypeParts, TypeRef};

/// What the crates above name of `go_table_core`.
pub mod table_core {
    pub use go_table_core::TypeTable;
}
