//! What a type has of its own: its fields, its methods, and the types that it embeds; and the faults of struct types, interface types and
//! receivers.
//!
//! The Go specification, "Struct types", "Interface types", "Method declarations".
#![tactic(auto)]

mod faults;
mod hidden;
mod indexed;
mod laws;
mod member;
mod members;
mod owner;

pub use faults::{MemberFault, check_base, check_methods, check_struct};
pub use hidden::check_hidden_fields;
pub use laws::{
    each_fault_once, embedding_is_a_step, faults_are_local, hidden_is_told, owner_is_local,
    repeated_is_told, starred_interface_is_told,
};
pub use member::{Hits, Member};
pub use owner::{Embedded, Owner, embeds, has_own_method};

/// What the crates above name of `go_type_core`.
pub mod type_core {
    pub use go_type_core::{
        Basic, Kind, Method, Signature, TypeFault, TypeTable, TypeTerm, has_same_signature, kind_of,
    };
}
