//! What a name denotes at a place of a file of a package.
//!
//! Blocks lie one inside another: the universe block, in it the package block, in that the block of a file, and in that
//! the blocks of a function (the Go specification, "Blocks"). A name denotes what is declared in the innermost block that has it
//! ("Declarations and scope").
#![tactic(auto)]

mod laws;
mod names;
mod scope;

pub use go_block_core::scope_stack::{DeclId, ShortDecl, ShortName};
pub use go_universe_core::Predeclared;
pub use laws::{
    blank_stays_out, denotes_one, file_is_inside, local_hides, package_is_never_hidden,
    universe_is_outermost,
};
pub use scope::{InScope, Scopes};

/// What the crates above name of `go_block_core`.
pub mod block_core {
    pub use go_block_core::{
        Binding, Blocks, DeclKey, DeclKind, DeclRef, Exports, Imported, Target, import_specs,
    };
}

/// What the crates above name of `go_text_core`.
pub mod text_core {
    pub use go_text_core::{Name, Rule, Span, add, is_digit, is_exported, is_letter, same_id};
}
