//! What is said of a text that has no tree, by its characters and tokens and the offset of its fault alone.
//!
//! Of a fault of the grammar [`mend`] says which token was met, the one change with which the text has a tree, the form of Go that the grammar of govisd
//! lacks, and which bracket is still open. Of a fault of a token [`lexical`] says the cause.

mod around;
mod brackets;
mod candidates;
mod extent;
mod finding;
mod flaw;
mod foreign;
mod forms;
mod lexing;
mod mending;
mod number;
mod outcome;
mod said;
mod tokens;

pub use crate::mend::finding::{GREATEST_LENGTH, mend};
pub use crate::mend::flaw::{Lexical, LexicalCause};
pub use crate::mend::foreign::ForeignWord;
pub use crate::mend::forms::FormOfGo;
pub use crate::mend::lexing::lexical;
pub use crate::mend::mending::{Mark, Mending, mended};
pub use crate::mend::outcome::Mend;
pub use crate::mend::said::TOO_HIGH;
