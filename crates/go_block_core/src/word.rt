//! The name of a refused import that is written without one.
ghost use Rattle.std.specs.Prelude.{◌≡◌, IfOk};
ghost use Rattle.std.specs.List.{list_all};
ghost use Rattle.go_tree_nodes.specs.token_core.Characters.{letter_or_digit};
ghost use Rattle.go_tree_nodes.specs.Terminals.{value_of};
ghost use Rattle.go_block_core.specs.Words.{begins_with_letter, is_keyword, identifier, last_element, as_text, is_nonblank_identifier, last_name};
ghost use Rattle.go_block_core.specs.mirrors.Shown.{text_shown};

use go_tree_nodes::TextLiteral;
use go_tree_nodes::text_core::{Name, is_digit, is_letter};
use go_tree_nodes::token_core::{KEYWORDS, characters_of};
use std::alloc::{AllocError, Global};
use std::str;

/// What stands behind the last `/` of a text, and the whole text where there is none.
fn last_element(text: &[u8]) -> &[u8]
    ensures { result.now ≡ last_element text.now }
{
    let mut start = text.len();
    while start > 0 && text[start - 1] != b'/' {
        start -= 1;
    }
    &text[start..]
}

/// Whether a word begins with a letter.
fn begins_with_letter(word: &[char]) -> bool
    ensures { result ≡ begins_with_letter word.now }
{
    match word {
        [c, ..] => is_letter(*c),
        [] => false,
    }
}

/// Whether a word is a keyword.
fn is_keyword(word: &[char]) -> bool
    ensures { result ≡ is_keyword word.now }
{
    KEYWORDS.iter().any(|k| word == k.spelling())
}

/// Whether each character of a word is a letter or a digit.
fn has_letters_and_digits(word: &[char]) -> bool
    ensures { result ≡ list_all letter_or_digit word.now }
{
    word.iter().all(|c| is_letter(*c) || is_digit(*c))
}

/// Whether a word is an identifier: a letter, with letters and digits behind it, and no keyword.
fn is_identifier(word: &[char]) -> bool
    ensures { result ≡ identifier word.now }
{
    begins_with_letter(word) && (has_letters_and_digits(word) && !is_keyword(word))
}

/// Bytes as a text, where they are UTF-8.
fn as_text(bytes: &[u8]) -> Option<&str>
    ensures { text_shown result ≡ as_text bytes.now }
{
    match str::from_utf8(bytes) {
        Ok(text) => Some(text),
        Err(_) => None,
    }
}

/// Whether a text is an identifier other than `_`.
fn is_name(alloc: Global, text: &str) -> Result<bool, AllocError>
    ensures { IfOk result (λ holds. holds ≡ is_nonblank_identifier text.now) }
{
    let word = characters_of(alloc, text)?;
    Ok(text != "_" && is_identifier(word.as_slice()))
}

/// The last element of a text, where it is an identifier other than `_`.
fn last_name(alloc: Global, text: &[u8]) -> Result<Option<&str>, AllocError>
    ensures { IfOk result (λ name. text_shown name ≡ last_name text.now) }
{
    let Some(element) = as_text(last_element(text)) else {
        return Ok(None);
    };
    if is_name(alloc, element)? {
        return Ok(Some(element));
    }
    Ok(None)
}

/// The name of a refused import of this path: the last element of the path, where that is an identifier other than `_`.
pub(crate) fn refused_name(alloc: Global, path: &TextLiteral) -> Result<Option<Name>, AllocError>
    ensures { IfOk result (λ name. name ≡ last_name (value_of path.now)) }
{
    let text = path.value(alloc)?;
    match last_name(alloc, &text)? {
        Some(name) => Ok(Some(Name::from_text(alloc, name)?)),
        None => Ok(None),
    }
}
