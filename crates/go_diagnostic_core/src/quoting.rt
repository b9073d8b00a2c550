//! Pieces of sources and numbers, as they stand in the words of a diagnostic.

use std::alloc::{AllocError, Global};

/// How many characters of a piece of a source are shown.
const MOST_SHOWN: usize = 40;

/// A piece of a source as it is shown: its first line up to 40 characters, with `..` after it where it goes on. A control character is escaped, as `\x1b`.
///
/// # Errors
///
/// `AllocError` where memory is wanting.
pub fn shown(alloc: Global, piece: &str) -> Result<String, AllocError> {
    let mut text = String::new(alloc);
    let mut count: usize = 0;
    for c in piece.chars() {
        if count == MOST_SHOWN || c == '\n' {
            text.push_str("..")?;
            return Ok(text);
        }
        push_shown(alloc, &mut text, c)?;
        count = count.saturating_add(1);
    }
    Ok(text)
}

// Adds a character, escaped where it is a control character.
fn push_shown(alloc: Global, text: &mut String, c: char) -> Result<(), AllocError> {
    if c.is_control() {
        let number = c as u32;
        let escaped = format!(in alloc; "\\x{number:02x}")?;
        return text.push_str(escaped.as_str());
    }
    text.push(c)
}

/// A number in decimal digits.
///
/// # Errors
///
/// `AllocError` where memory is wanting.
pub fn digits(alloc: Global, number: usize) -> Result<String, AllocError> {
    number.to_string(alloc)
}
