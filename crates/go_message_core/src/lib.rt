//! What is said of one fault of a snapshot: a headline that names what stands there, and lines after it, with suggestions that are among what the
//! queries give.
#![tactic(auto)]

mod clauses;
mod common;
mod imports;
mod local;
mod names;
mod saying;
mod twice;

pub use saying::{message, message_below, message_in};

/// What the crates above name of `go_diagnostic_core`.
pub mod diagnostic_core {
    pub use go_diagnostic_core::{Message, ScannedFile};
}
