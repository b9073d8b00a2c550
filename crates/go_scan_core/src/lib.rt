//! The scanner of Go: from a source text to its tokens and comments (`go_token_core`).
//!
//! The Go specification, "Lexical elements". Identifiers, keywords, operators and punctuation marks,
//! integer and string literals, comments and white space are read, and semicolons are inserted at
//! the ends of lines. Runes, fractions and imaginary numbers are faults where they begin.
#![tactic(auto)]

mod candidates;
mod enclosed;
mod front;
mod laws;
mod number;
mod piece;
mod reading;
mod scanner;

pub use laws::{comments_are_the_answer, one_answer, one_list_of_comments, tokens_are_the_answer};
pub use scanner::{comments, scan};
