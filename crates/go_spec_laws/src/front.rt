//! What the definitions of scanner, trees, declarations and blocks come to, in the words of the Go specification: what integer and string literals stand
//! for, which words are identifiers, how high trees are, which declaration comes first, what a function declares and where that is in scope, and what
//! imports bind. Laws, with nothing to run.
//!
//! The Go specification, "Integer literals", "String literals", "Identifiers", "Keywords", "Blocks", "Declarations and scope", "Import declarations",
//! "Package initialization".

mod height_laws;
mod import_laws;
mod integer_laws;
mod local_laws;
mod order_laws;
mod string_laws;
mod word_laws;

pub use crate::front::height_laws::{heights_are_of_paths, heights_are_worked};
pub use crate::front::import_laws::imports_bind_by_form;
pub use crate::front::integer_laws::integer_values_are_one;
pub use crate::front::local_laws::{declarations_are_written, worked_branches};
pub use crate::front::order_laws::declarations_have_one_order;
pub use crate::front::string_laws::string_values_are_one;
pub use crate::front::word_laws::identifiers_are_words;
