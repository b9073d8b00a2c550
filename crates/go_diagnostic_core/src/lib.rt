//! Diagnostics: what they are made of. The place of a fault with the tokens of its file, the words and lines of what is said of it, and suggestions that are
//! among what the queries give.
#![tactic(auto)]

mod adding;
mod expressions;
mod here;
mod messages;
mod near;
mod packages;
mod place;
mod quoting;
mod suggesting;
mod tokens;

pub use adding::{
    add_change, add_import_with, add_names, add_near, add_near_import, add_near_in_case,
};
pub use here::{Here, ScannedFile};
pub use messages::{LineKind, Marked, Message, MessageLine, Words};
pub use near::nearest;
pub use packages::{
    bound_here, declared_in, import_place, kind_text, offset_of, own_decl, package_at,
    package_of_name, place_of_decl,
};
pub use place::{place_here, place_text};
pub use quoting::{digits, shown};
pub use suggesting::{nearest_import, nearest_name};
pub use tokens::Tokens;

/// What the crates above name of `go_snap_core`.
pub mod snap_core {
    pub use go_snap_core::{
        FileIn, PlacedFault, Recompiled, Snapshot, compile, faults_lie_in_files, recompile,
    };
}
