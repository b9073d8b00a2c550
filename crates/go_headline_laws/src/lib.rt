//! What is promised of everything that sessions and workers do, as one record: `specs/Headline.antt`; and of what sessions are told, as another:
//! `specs/SessionHeadline.antt`. Laws, with nothing to run.
//!
//! The Go specification, "Declarations and scope", "Import declarations", "Qualified identifiers", "Selectors", "Calls", "Composite literals".
#![tactic(auto)]

mod laws;
pub mod separation;
pub mod sessions;

pub use laws::headline;
