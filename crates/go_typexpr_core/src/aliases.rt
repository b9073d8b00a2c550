//! Aliases: what the aliases of a package mean, and which of them reach themselves. The Go specification, "Alias declarations".
//!
//! It knows no trees: an alias is a declaration with the type that the name behind its `=` means, where the name of an alias means the alias
//! itself.

mod laws;
mod loops;
mod outlined;
mod targets;
mod written;

pub use crate::aliases::laws::{
    loops_agree, one_target, targets_are_ends, types_have_targets, worked_aliases,
};
pub use crate::aliases::loops::alias_loops;
pub use crate::aliases::outlined::written_aliases;
pub use crate::aliases::targets::{Aliases, aliases_of};
pub use crate::aliases::written::Alias;
