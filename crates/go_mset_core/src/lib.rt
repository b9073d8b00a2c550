//! The method sets of types, and which types implement an interface type.
//!
//! The Go specification, "Method sets", "Struct types", "Implementing an interface".
#![tactic(auto)]

mod interface;
mod laws;
mod methods;
mod wanted;

pub use interface::{Missing, implements, implements_by_pointer};
pub use laws::{
    have_no_methods, implementation_is_local, implements_is_transitive, implements_itself,
    interfaces_have_no_more, one_implementation, one_method_set, pointer_has_more,
    pointer_implements_more, promotion, receivers_decide, selectors_decide,
};
pub use methods::{SetMethod, method_set};

/// What the crates above name of `go_embed_core`.
pub mod embed_core {
    pub use go_select_core::embed_core::Hits;
}

/// What the crates above name of `go_select_core`.
pub mod select_core {
    pub use go_select_core::{
        EmbedPath, Member, Owner, Selected, select, select_behind_pointer, selectable,
    };
}
