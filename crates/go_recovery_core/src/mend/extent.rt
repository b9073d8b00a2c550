//! How many bytes are shown of a fault of a token. No clause speaks of them.

/// How many bytes stand before the end of the line.
pub(crate) fn line_len(bytes: &[u8]) -> usize {
    bytes
        .iter()
        .take_while(|byte| **byte != b'\n' && **byte != b'\r')
        .count()
}

fn is_literal_byte(byte: u8, before: u8) -> bool {
    byte.is_ascii_alphanumeric()
        || byte == b'_'
        || byte == b'.'
        || ((byte == b'+' || byte == b'-') && matches!(before, b'e' | b'E' | b'p' | b'P'))
}

/// How many bytes a number has, with the sign of its exponent.
pub(crate) fn literal_len(bytes: &[u8]) -> usize {
    let mut before = 0;
    for (at, byte) in bytes.iter().enumerate() {
        if !is_literal_byte(*byte, before) {
            return at;
        }
        before = *byte;
    }
    bytes.len()
}

/// How many bytes a rune literal has: up to its closing quotation mark, or to the end of the line where there is none.
pub(crate) fn rune_len(bytes: &[u8]) -> usize {
    let mut before = 0;
    for (at, byte) in bytes.iter().enumerate() {
        if *byte == b'\n' {
            return at;
        }
        if at > 1 && *byte == b'\'' && before != b'\\' {
            return at + 1;
        }
        before = *byte;
    }
    bytes.len()
}

// Whether a byte may stand behind a backslash in a string.
fn is_escape_byte(byte: u8) -> bool {
    matches!(
        byte,
        b'a' | b'b' | b'f' | b'n' | b'r' | b't' | b'v' | b'\\' | b'"' | b'x' | b'u' | b'U'
    ) || matches!(byte, b'0'..=b'7')
}

// Whether a byte is the first of a character.
fn is_first_byte(byte: u8) -> bool {
    byte < 128 || byte >= 192
}

// Where the character ends that begins at a place.
fn character_end(bytes: &[u8], start: usize) -> usize {
    match bytes.get(start..) {
        Some(rest) => {
            let more = rest
                .iter()
                .skip(1)
                .take_while(|byte| !is_first_byte(**byte))
                .count();
            start
                .saturating_add(more)
                .saturating_add(1)
                .min(bytes.len())
        }
        None => bytes.len(),
    }
}

/// From where to where the first backslash of a string stands, with the character behind it, that begins no escape by that character; and all up to the end
/// of the line where there is no such one.
pub(crate) fn escape_extent(bytes: &[u8]) -> (usize, usize) {
    let mut escaped = false;
    for (at, byte) in bytes.iter().enumerate() {
        if *byte == b'\n' {
            break;
        }
        if escaped && !is_escape_byte(*byte) {
            return (at.saturating_sub(1), character_end(bytes, at));
        }
        escaped = !escaped && *byte == b'\\';
    }
    (0, line_len(bytes))
}
