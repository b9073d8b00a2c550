//! What builds and queries find, as replies tell it.
#![tactic(auto)]

mod telling;

pub use telling::{described, described_type, listed, names_told, or_memory, places, ran};
