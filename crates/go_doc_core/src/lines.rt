//! The lines of a text.
ghost use Rattle.std.specs.Prelude.{◌≡◌, ◌≤◌, ◌+◌, ◌-◌, ◌&&◌, min, cond, nat_eq, nat_lt, length};
ghost use Rattle.go_doc_core.specs.DocComments.{begins_line, has_mark, is_blank_byte, line_of};

// How many line ends a byte is.
fn line_end(byte: u8) -> usize
    ensures { result ≡ cond (nat_eq byte 10) 1 0 }
{
    if byte == b'\n' { 1 } else { 0 }
}

// Whether a line end may stand between two places that counts beside these.
fn is_short(at: usize, from: usize, ends: usize) -> bool
    ensures { result ≡ (nat_lt from at && nat_lt ends 2) }
{
    at > from && ends < 2
}

/// A number of line ends, and with it that of those between two places of a text; 2 where it is more. No more lines are read than these.
pub(crate) fn with_line_ends(bytes: &[u8], from: usize, to: usize, so_far: usize) -> usize
    requires order { from ≤ to }
    requires within { to ≤ length bytes.now }
    requires few { so_far ≤ 2 }
    ensures { result ≡ min 2 (so_far + (line_of bytes.now to - line_of bytes.now from)) }
{
    let mut ends = so_far;
    let mut at = to;
    'bytes: while is_short(at, from, ends) {
        at -= 1;
        ends += line_end(bytes[at]);
    }
    ends
}

// Whether a byte is white space other than the end of a line.
fn is_blank(byte: u8) -> bool
    ensures { result ≡ is_blank_byte byte }
{
    byte == b' ' || byte == b'\t' || byte == b'\r'
}

// Whether a text begins with a byte order mark.
fn has_mark(bytes: &[u8]) -> bool
    ensures { result ≡ has_mark bytes.now }
{
    bytes.len() >= 3 && bytes[0] == 0xEF && bytes[1] == 0xBB && bytes[2] == 0xBF
}

/// Whether white space alone stands before a place of a text on its line, or a byte order mark at the text's start.
pub(crate) fn begins_line(bytes: &[u8], place: usize) -> bool
    requires { place ≤ length bytes.now }
    ensures { result ≡ begins_line bytes.now place }
{
    let mut at = place;
    while at > 0 {
        let byte = bytes[at - 1];
        if byte == b'\n' {
            return true;
        }
        if !is_blank(byte) {
            return at == 3 && has_mark(bytes);
        }
        at -= 1;
    }
    true
}
