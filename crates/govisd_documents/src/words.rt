//! Words of a text, by its bytes.

/// Whether a byte may stand in a name: an ASCII letter or digit, `_`, or a byte of another character.
pub fn is_name_byte(byte: u8) -> bool {
    byte.is_ascii_alphanumeric() || byte == b'_' || byte >= 128
}

/// Where the name ends that an offset lies in, or the offset itself where none stands there.
pub fn name_end(bytes: &[u8], offset: usize) -> usize {
    for at in offset..bytes.len() {
        if !is_name_byte(bytes[at]) {
            return at;
        }
    }
    offset.max(bytes.len())
}

/// Where the name begins that ends at an offset or goes on there.
pub fn name_start(bytes: &[u8], offset: usize) -> usize {
    let Some((front, _)) = bytes.split_at_checked(offset) else {
        return offset;
    };
    for at in (0..front.len()).rev() {
        if !is_name_byte(front[at]) {
            return at.saturating_add(1);
        }
    }
    0
}

// Where a string ends whose first byte stands at an offset, on the same line.
fn string_end(bytes: &[u8], offset: usize, quote: u8) -> usize {
    let mut escaped = false;
    for at in offset.saturating_add(1)..bytes.len() {
        if bytes[at] == b'\n' {
            return at;
        }
        if escaped {
            escaped = false;
        } else if bytes[at] == b'\\' && quote == b'"' {
            escaped = true;
        } else if bytes[at] == quote {
            return at.saturating_add(1);
        }
    }
    bytes.len()
}

// Where the character ends that begins at an offset.
fn character_end(bytes: &[u8], offset: usize) -> usize {
    for at in offset.saturating_add(1)..bytes.len() {
        if bytes[at] < 128 || bytes[at] >= 192 {
            return at;
        }
    }
    bytes.len()
}

/// Where the token ends that begins at an offset: a name, a string, or else one character; none where a line ends there.
pub fn token_end(bytes: &[u8], offset: usize) -> usize {
    let Some(first) = bytes.get(offset).copied() else {
        return offset;
    };
    if is_name_byte(first) {
        return name_end(bytes, offset);
    }
    match first {
        b'"' | b'`' => string_end(bytes, offset, first),
        b'\n' | b'\r' => offset,
        _ => character_end(bytes, offset),
    }
}

/// Whether a name stands as a word in a part of a text.
pub fn has_word(bytes: &[u8], name: &[u8]) -> bool {
    if name.is_empty() {
        return false;
    }
    for at in 0..bytes.len() {
        let (front, rest) = bytes.split_at(at);
        if rest.starts_with(name) && stands_alone(front, rest, name.len()) {
            return true;
        }
    }
    false
}

// Whether no byte of a name stands before or behind the first bytes of the rest.
fn stands_alone(front: &[u8], rest: &[u8], len: usize) -> bool {
    let before = match front.last() {
        Some(byte) => is_name_byte(*byte),
        None => false,
    };
    let behind = match rest.get(len) {
        Some(byte) => is_name_byte(*byte),
        None => false,
    };
    !before && !behind
}

/// The text between two offsets; empty where there is none.
pub fn text_between(text: &str, start: usize, end: usize) -> &str {
    match text.split_at_checked(end) {
        Some((front, _)) => match front.split_at_checked(start) {
            Some((_, piece)) => piece,
            None => "",
        },
        None => "",
    }
}

/// The token of a text that begins at an offset.
pub fn token_at(text: &str, offset: usize) -> &str {
    text_between(text, offset, token_end(text.as_bytes(), offset))
}
