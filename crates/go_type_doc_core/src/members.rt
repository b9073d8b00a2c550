//! What a variable of a type has, as a package sees it: its fields and its methods, each with the embedded fields that lead to it.
//!
//! The Go specification, "Selectors", "Struct types", "Method sets".

mod listing;

pub use crate::members::listing::{MemberKind, MethodPlace, TypeMember, members_of};
