//! The tokens of Go: their kinds, how they are spelled, and the values of literals.
//!
//! The Go specification, "Lexical elements". Tokens and comments with their places, the spellings of
//! keywords and operators, and the faults that a text may have instead; the numbers that integer
//! literals write, and the bytes that string literals stand for.
#![tactic(auto)]

mod characters;
mod escapes;
mod kind;
mod number;
mod token;
mod value;

pub use characters::characters_of;
pub use escapes::{Meaning, escape};
pub use kind::{CommentKind, KEYWORDS, Keyword, OPERATORS, Operator, TokenKind};
pub use number::{integer_value, literal_value};
pub use token::{Comment, LexFault, ScanError, Token};
pub use value::{plain_value, string_value};

/// What the crates above name of `go_text_core`.
pub mod text_core {
    pub use go_text_core::{
        Name, Rule, Span, add, boxed, fitted, is_blank, is_digit, is_exported, is_letter, same_id,
    };
}
