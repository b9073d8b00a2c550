//! What a position is.
ghost use Rattle.std.specs.Prelude.{◌≡◌};
ghost use Rattle.go_lsp_core.specs.positions.Positions.{units};

/// What the characters of a line are counted in.
#[derive(Clone, Copy, Debug, PartialEq, Eq)]
pub enum Encoding {
    /// Bytes of UTF-8.
    Utf8,
    /// Units of UTF-16, of which a character has one or two.
    Utf16,
}

/// A position in a text, between two characters.
#[derive(Clone, Copy, Debug, PartialEq, Eq)]
pub struct Position {
    /// The line, counted from 0. A line is ended by `\n`, by `\r\n` or by `\r`.
    pub line: usize,
    /// How many units of the line stand before the position.
    pub character: usize,
}

/// A part of a text.
#[derive(Clone, Copy, Debug, PartialEq, Eq)]
pub struct Range {
    /// The position before its first character.
    pub start: Position,
    /// The position after its last character.
    pub end: Position,
}

// How many units a character has, counted at its first byte. Its other bytes count 0.
pub(crate) fn units(encoding: Encoding, byte: u8) -> usize
    ensures { result ≡ units encoding byte }
{
    match encoding {
        Encoding::Utf8 => match byte {
            0..=127 => 1,
            128..=191 => 0,
            192..=223 => 2,
            224..=239 => 3,
            _ => 4,
        },
        Encoding::Utf16 => match byte {
            0..=127 => 1,
            128..=191 => 0,
            192..=239 => 1,
            _ => 2,
        },
    }
}
