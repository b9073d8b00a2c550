//! What an editor asks of a snapshot: definitions, references, hovers, symbols, tokens, completions and signatures.
#![tactic(auto)]

mod completing;
mod defining;
mod forms;
mod hovering;
mod kinds;
mod resolving;
mod signing;
mod symbols;
mod tokens;
mod written;

pub use completing::completion;
pub use defining::{definition, highlights, references};
pub use hovering::hover;
pub use resolving::resolved;
pub use signing::signature_help;
pub use symbols::{document_symbols, workspace_symbols};
pub use tokens::{legend, semantic_tokens};
