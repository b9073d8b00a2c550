//! The pieces of a text: white space, ends of lines, lexemes and comments.
ghost use Rattle.std.specs.Prelude.{◌≡◌, ◌^◌, ◌<◌};
ghost use Rattle.std.specs.Char.{is_ascii, len_utf8};
ghost use Rattle.std.specs.List.{list_all, sum_by};

use go_token_core::{CommentKind, TokenKind};

/// What a piece of a text is.
#[derive(Clone, Copy)]
pub enum Piece {
    /// A space, a tab or a carriage return.
    Space,
    /// The end of a line.
    LineEnd,
    /// The characters of a token.
    Lexeme(TokenKind),
    /// A comment.
    Remark(CommentKind),
}

/// Whether each of the characters is one of ASCII.
fn are_ascii(text: &[char]) -> bool
    ensures { result ≡ list_all is_ascii text.now }
{
    text.iter().all(|c| c.is_ascii())
}

/// How many bytes characters take.
pub fn width(text: &[char]) -> u32
    requires { sum_by len_utf8 text.now < 2 ^ 32 }
    ensures { result ≡ sum_by len_utf8 text.now }
{
    if are_ascii(text) {
        return text.len() as u32;
    }
    let bytes: usize = text.iter().map(|c| c.len_utf8()).sum();
    bytes as u32
}
