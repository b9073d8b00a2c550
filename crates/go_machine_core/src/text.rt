//! What is printed.
ghost use Rattle.std.specs.Prelude.{◌≡◌, List, ℕ, ◌++◌, length, string_bytes, OnOk, Some};
ghost use Rattle.go_machine_core.specs.Words.{word_text, rest_text, line_text};

use crate::words::holds;
use go_object_core::instructions::Word;
use std::alloc::AllocError;

fn write_word(text: &mut String, letter: Word, word: i64) -> Result<(), AllocError>
    ensures { OnOk result (string_bytes text.new ≡ string_bytes text.old ++ word_text letter word) }
{
    match letter {
        Word::Int => write!(text, "{word}"),
        Word::Bool => {
            if holds(word) {
                text.push_str("true")
            } else {
                text.push_str("false")
            }
        }
    }
}

// Those behind the first, each behind a space, and the newline.
fn write_rest(text: &mut String, letters: &[Word], words: &[i64]) -> Result<(), AllocError>
    requires { length letters.now ≡ length words.now }
    ensures { OnOk result ((line : List ℕ) × (rest_text letters.now words.now ≡ Some line) × (string_bytes text.new ≡ string_bytes text.old ++ line)) }
{
    match (letters.split_first(), words.split_first()) {
        (Some((letter, letters)), Some((word, words))) => {
            text.push_str(" ")?;
            write_word(text, *letter, *word)?;
            write_rest(text, letters, words)
        }
        _ => text.push_str("\n"),
    }
}

/// Writes a line.
pub(crate) fn write_line(
    text: &mut String,
    letters: &[Word],
    words: &[i64],
) -> Result<(), AllocError>
    requires { length letters.now ≡ length words.now }
    ensures { OnOk result ((line : List ℕ) × (line_text letters.now words.now ≡ Some line) × (string_bytes text.new ≡ string_bytes text.old ++ line)) }
{
    match (letters.split_first(), words.split_first()) {
        (Some((letter, letters)), Some((word, words))) => {
            write_word(text, *letter, *word)?;
            write_rest(text, letters, words)
        }
        _ => text.push_str("\n"),
    }
}
