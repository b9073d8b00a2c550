//! What is said of a fault of a token.
ghost use Rattle.std.specs.Prelude.{◌≡◌, IfOk, string_bytes};
ghost use Rattle.std.specs.Option.{option_map};
ghost use Rattle.go_recovery_core.specs.mend.Lexical.{cause_help, cause_words, character_help, flaw_text, piece_of};

use crate::mend::mending::is_cut;
use crate::mend::said::{is_shown, joined};
use std::alloc::{AllocError, Global};

/// Why a text has a fault of its tokens.
#[derive(Clone, Copy, Debug, PartialEq, Eq)]
pub enum LexicalCause {
    /// A character that begins no token. Rule L1.
    NoToken(char),
    /// A byte order mark that is not the first character. Rule L1.
    ByteOrderMark,
    /// The character of the number 0. Rule L1.
    Nul,
    /// A string without its closing quotation mark on its line. Rule L2.
    OpenString,
    /// A raw string without its closing quotation mark. Rule L2.
    OpenRawString,
    /// A comment without `*/`. Rule L2.
    OpenComment,
    /// A rune literal. Rule L3.
    Rune,
    /// A floating-point literal. Rule L3.
    Float,
    /// An imaginary literal. Rule L3.
    Imaginary,
    /// An integer above 2^63 - 1. Rule L3.
    TooLarge,
    /// A digit above 7 in a number that begins with 0. Rule L3.
    OctalDigit,
    /// Letters or `_` in a number, or a prefix without a digit. Rule L3.
    Malformed,
    /// A backslash and what stands behind it in a string, which is no escape. Rule L3.
    Escape,
}

/// What is said of a fault of a token.
#[derive(Clone, Copy, Debug)]
pub struct Lexical {
    /// Why the text has a fault.
    pub cause: LexicalCause,
    /// The offset in bytes of the first byte that the cause is about: of the character, the number, the escape or the string.
    pub from: usize,
    /// The offset after the last one.
    pub to: usize,
}

impl LexicalCause {
    /// The sentence about the cause: `this character begins no token`. It has one line.
    pub fn words(self) -> &'static str
        ensures { result.now ≡ cause_words self }
    {
        match self {
            LexicalCause::NoToken(_) => "this character begins no token",
            LexicalCause::ByteOrderMark => "a byte order mark stands at the start of a text alone",
            LexicalCause::Nul => "a NUL character stands in no text",
            LexicalCause::OpenString => "this string has no end on its line",
            LexicalCause::OpenRawString => "this raw string has no closing backquote",
            LexicalCause::OpenComment => "this comment has no */",
            LexicalCause::Rune => "rune literals: Go has them, govisd does not support them yet",
            LexicalCause::Float =>
                "floating-point numbers: Go has them, govisd does not support them yet",
            LexicalCause::Imaginary =>
                "imaginary numbers: Go has them, govisd does not support them yet",
            LexicalCause::TooLarge => "this number is above 9223372036854775807",
            LexicalCause::OctalDigit => "an octal number has the digits 0 to 7",
            LexicalCause::Malformed => "this is no integer literal",
            LexicalCause::Escape => "this is no escape",
        }
    }

    /// What helps, if anything is known that does.
    pub fn help(self) -> Option<&'static str>
        ensures { option_map (λ s. s.now) result ≡ cause_help self }
    {
        match self {
            LexicalCause::NoToken(c) => character_help(c),
            LexicalCause::Escape => Some("write \\\\ for a backslash, or use a raw string"),
            _ => None,
        }
    }
}

// What helps where a character begins no token.
fn character_help(c: char) -> Option<&'static str>
    ensures { option_map (λ s. s.now) result ≡ character_help c }
{
    if c == '#' {
        return Some("Go's comments begin with //");
    }
    if c == '?' {
        return Some("Go has no ?: operator: write an if");
    }
    if c == '\u{201c}' || c == '\u{201d}' {
        return Some("Go's strings stand between \" and \"");
    }
    None
}

// The bytes between two offsets, where they are a piece of the text.
fn piece(text: &str, from: usize, to: usize) -> Option<&str>
    ensures { option_map (λ s. s.now) result ≡ piece_of text.now from to }
{
    if is_cut(text, from, to) {
        return Some(&text[from..to]);
    }
    None
}

impl Lexical {
    /// The headline: `#: this character begins no token`. It has one line. The text is the one that the fault is of.
    ///
    /// # Errors
    ///
    /// `AllocError` where memory runs out.
    pub fn headline(&self, alloc: Global, text: &str) -> Result<String, AllocError>
        ensures { IfOk result (λ s. string_bytes s ≡ flaw_text text.now self.now) }
    {
        let words = self.cause.words();
        match piece(text, self.from, self.to) {
            Some(spelled) => {
                if is_shown(spelled) {
                    return joined(alloc, spelled, ": ", words);
                }
                String::from_str(alloc, words)
            }
            None => String::from_str(alloc, words),
        }
    }
}
