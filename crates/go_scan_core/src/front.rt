//! What begins at the front of a text.
ghost use Rattle.std.specs.Prelude.{◌≡◌};
ghost use Rattle.go_scan_core.specs.mirrors.Front.{front_of};

use go_token_core::text_core::is_letter;

/// What begins at the front of a text.
#[derive(Clone, Copy)]
pub enum Front {
    /// The text is empty.
    Nothing,
    /// A space, a tab or a carriage return.
    Space,
    /// The end of a line.
    LineEnd,
    /// `"`
    Quote,
    /// A backquote.
    Backquote,
    /// `//`
    LineComment,
    /// `/*`
    GeneralComment,
    /// A rune, or a fraction that begins with its dot.
    Refused,
    /// A letter.
    Letter,
    /// A decimal digit.
    Digit,
    /// None of these.
    Other,
}

/// What begins at the front.
#[tactic(auto, unfolding(crate::specs::mirrors::Front::front_of))]
pub fn front_at(text: &[char]) -> Front
    ensures { result ≡ front_of text.now }
{
    match text {
        [] => Front::Nothing,
        [' ' | '\t' | '\r', ..] => Front::Space,
        ['\n', ..] => Front::LineEnd,
        ['"', ..] => Front::Quote,
        ['`', ..] => Front::Backquote,
        ['\'', ..] => Front::Refused,
        ['/', '/', ..] => Front::LineComment,
        ['/', '*', ..] => Front::GeneralComment,
        ['.', c, ..] if c.is_ascii_digit() => Front::Refused,
        [c, ..] if is_letter(*c) => Front::Letter,
        [c, ..] if c.is_ascii_digit() => Front::Digit,
        _ => Front::Other,
    }
}
