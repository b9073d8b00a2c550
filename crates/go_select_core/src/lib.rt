//! All that selectors denote behind an operand, and the laws of what they denote: the field or method at the shallowest depth, over embedded
//! fields.
//!
//! The Go specification, "Selectors", "Struct types".
#![tactic(auto)]

mod along;
mod laws;
pub mod levels;
mod listing;
mod names;
pub mod surveys;

pub use crate::levels::{EmbedPath, Selected, select, select_behind_pointer};
pub use along::path_names;
pub use go_embed_core::{Member, Owner};
pub use laws::{
    listing_is_local, one_listing, only_one_answer, selection_is_local, short_paths_suffice,
};
pub use listing::{note_level, selectable, selections};
pub use names::{Id, Known, Names};

/// What the crates above name of `go_embed_core`.
pub mod embed_core {
    pub use go_embed_core::{
        Hits, MemberFault, check_base, check_hidden_fields, check_methods, check_struct,
        has_own_method,
    };
}

/// What the crates above name of `go_type_core`.
pub mod type_core {
    pub use go_embed_core::type_core::{
        Basic, Method, Signature, TypeFault, TypeTable, TypeTerm, has_same_signature,
    };
}
