//! Types of Go as terms: what they are made of, and which are identical.
//!
//! A defined type stands in a term as its declaration's key, and is never unfolded there. A struct type and an interface type
//! stand with the package where they are written, since two identifiers that are not exported are the same in one package alone.
//! The Go specification, "Types", "Struct types", "Interface types", "Type identity".
#![tactic(auto)]

mod copies;
mod laws;
mod params;
mod same;
pub mod settling;
mod tag;
mod term;

pub use copies::{both, copy, copy_numbers, copy_signature};
pub use laws::{
    defined_by_key, identity_by_form, identity_is_equivalence, order_does_not_count,
    tags_are_compared, tags_do_not_count,
};
pub use same::{
    LinePair, has_same_signature, identical, identical_but_for_tags, is_met, is_no_type,
};
pub use tag::Tag;
pub use term::{
    Basic, Field, FieldLine, LocalPlace, MemberPlace, Method, Params, Signature, TypeTerm,
};

/// What the crates above name of `go_decl_core`.
pub mod decl_core {
    pub use go_decl_core::{
        Anchor, DeclForm, DeclKey, DeclKind, DeclRef, Outline, Places, TopDecl, anchors,
        last_ident, outline, place_order,
    };
}

/// What the crates above name of `go_text_core`.
pub mod text_core {
    pub use go_tree_nodes::text_core::{Name, Rule, add, is_blank};
}
