//! What is said of one fault of a snapshot, with types: what has no such member, which argument does not fit, what there is and what is wanted.
#![tactic(auto)]

mod saying;

pub use saying::{FileMessages, is_of_types, message_below};
