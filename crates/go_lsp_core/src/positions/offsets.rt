//! Positions and offsets of bytes, by one walk over the text.
ghost use Rattle.std.specs.Prelude.{◌≡◌, ◌+◌, ◌<◌, ◌≤◌, ◌^◌, length, drop, slice_index, IsCharBoundary};
ghost use Rattle.go_lsp_core.specs.positions.Positions.{begins_lf, ends_line, is_end_byte, offset_at, position_at, units};
ghost use Rattle.go_lsp_core.specs.positions.mirrors.Walks.{line_start, stepped, total};

use crate::positions::place::{Encoding, Position, units};

// Whether a `\n` stands at this offset.
fn is_lf_at(bytes: &[u8], at: usize) -> bool
    ensures { result ≡ begins_lf (drop at bytes.now) }
{
    at < bytes.len() && bytes[at] == b'\n'
}

// Whether the byte at this offset is the last one of the end of a line.
pub(crate) fn ends_line(bytes: &[u8], at: usize) -> bool
    requires { at < length bytes.now }
    ensures { result ≡ ends_line (slice_index bytes.now at) (drop (at + 1) bytes.now) }
{
    bytes[at] == b'\n' || (bytes[at] == b'\r' && !is_lf_at(bytes, at + 1))
}

// Whether a byte belongs to the end of a line.
fn is_end_byte(byte: u8) -> bool
    ensures { result ≡ is_end_byte byte }
{
    byte == b'\n' || byte == b'\r'
}

// The position after a byte, from the position before it.
fn stepped(encoding: Encoding, bytes: &[u8], at: usize, position: Position) -> Position
    requires within { at < length bytes.now }
    requires line { position.line ≤ at }
    requires fits { position.character + total (units encoding) (drop at bytes.now) < 2 ^ 64 }
    ensures { result ≡ stepped (units encoding) (slice_index bytes.now at) (drop (at + 1) bytes.now) position }
{
    if ends_line(bytes, at) {
        return Position {
            line: position.line + 1,
            character: 0,
        };
    }
    if bytes[at] == b'\r' {
        return position;
    }
    Position {
        line: position.line,
        character: position.character + units(encoding, bytes[at]),
    }
}

// The position of an offset.
pub(crate) fn position_in(encoding: Encoding, bytes: &[u8], offset: usize) -> Position
    requires { total (units encoding) bytes.now < 2 ^ 64 }
    ensures { result ≡ position_at (units encoding) bytes.now offset }
{
    let mut position = Position {
        line: 0,
        character: 0,
    };
    for at in 0..offset.min(bytes.len()) {
        position = stepped(encoding, bytes, at, position);
    }
    position
}

// How many bytes of its first line stand before a character of that line.
pub(crate) fn reach(encoding: Encoding, bytes: &[u8], character: usize) -> usize
    ensures within { result ≤ length bytes.now }
    ensures reach { result ≡ offset_at (units encoding) bytes.now 0 character }
{
    let mut room = character;
    for at in 0..bytes.len() {
        let units = units(encoding, bytes[at]);
        if is_end_byte(bytes[at]) || room < units {
            return at;
        }
        room -= units;
    }
    bytes.len()
}

// Where a line starts, or how many bytes there are where there is no such line.
fn line_start(bytes: &[u8], line: usize) -> usize
    ensures within { result ≤ length bytes.now }
    ensures start { result ≡ line_start bytes.now line }
{
    let mut left = line;
    for at in 0..bytes.len() {
        if left == 0 {
            return at;
        }
        if ends_line(bytes, at) {
            left -= 1;
        }
    }
    bytes.len()
}

/// The offset, in bytes from the start of the text, of a position. A position after the end of its line is the end of that line, one on a line after the last
/// is the end of the text, and one within a character is the start of that character. No offset lies within a character.
///
/// It takes one walk over the text; for many positions of one text see [`Lines`](crate::positions::Lines).
pub fn offset_of(text: &str, encoding: Encoding, position: Position) -> usize
    ensures offset { result ≡ offset_at (units encoding) text.now position.line position.character }
    ensures boundary { IsCharBoundary text.now result }
{
    let bytes = text.as_bytes();
    let start = line_start(bytes, position.line);
    let (_, rest) = bytes.split_at(start);
    start + reach(encoding, rest, position.character)
}

/// The position of an offset, which counts bytes from the start of the text. An offset after the end of the text has the position of that end, one within a
/// character that of the end of the character, and one between `\r` and `\n` that of the end of the line.
///
/// It takes one walk over the text; for many offsets of one text see [`Lines`](crate::positions::Lines).
pub fn position_of(text: &str, encoding: Encoding, offset: usize) -> Position
    ensures { result ≡ position_at (units encoding) text.now offset }
{
    position_in(encoding, text.as_bytes(), offset)
}
