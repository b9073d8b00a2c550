//! Paths: what several begin with, and what they end in.

/// What comes after the last `/` of a path; the whole path where there is none.
pub(crate) fn last_element(path: &str) -> &str {
    match path.rsplit_once('/') {
        Some((_, last)) => last,
        None => path,
    }
}

// How many bytes two texts have in common from the front on, up to a `/` or the end of both or of one in front of a `/`.
fn common_length(one: &str, other: &str) -> usize {
    let mut length: usize = 0;
    let ones = one.as_bytes();
    let others = other.as_bytes();
    let mut number: usize = 0;
    for byte in ones {
        match others.get(number) {
            Some(beside) if *beside == *byte => {}
            Some(_) => return length,
            None => break,
        }
        if *byte == b'/' {
            length = number;
        }
        number = number.saturating_add(1);
    }
    if ends_at(ones, others.len()) && ends_at(others, ones.len()) {
        return ones.len().min(others.len());
    }
    length
}

// Whether a path has no more than so many bytes, or a `/` after them.
fn ends_at(path: &[u8], length: usize) -> bool {
    match path.get(length) {
        Some(byte) => *byte == b'/',
        None => true,
    }
}

/// The path that the paths of all packages begin with, which are in byte order: that of the first and the last.
pub(crate) fn common_path<'a>(first: &'a str, last: &str) -> &'a str {
    let length = common_length(first, last);
    match first.get(..length) {
        Some(path) => path,
        None => "",
    }
}
