//! The heads of messages.
ghost use Rattle.std.specs.Prelude.{◌≡◌, ◌+◌, ◌≤◌, drop, length, take};
ghost use Rattle.go_lsp_core.specs.frames.Frames.{as_digit, begins_with, content_length, digits, ends_head, head_from, head_in, is_named, most_head, number_in};

/// The most bytes of a head.
pub(crate) const MOST_HEAD: usize = 4096;

/// The most bytes of a message.
pub(crate) const MOST_BODY: usize = 67_108_864;

// The greatest length that is told from greater ones.
const MOST_LENGTH: usize = 1_000_000_000_000_000_000;

// Whether an end of a line and an empty line stand here.
fn ends_head(bytes: &[u8]) -> bool
    ensures { result ≡ ends_head bytes.now }
{
    match bytes {
        [a, b, c, d, ..] => *a == b'\r' && *b == b'\n' && *c == b'\r' && *d == b'\n',
        _ => false,
    }
}

// How many bytes the head has that some bytes begin with.
#[tactic(auto, using(crate::proofs::FramesEnds::head_step))]
fn head_of(bytes: &[u8]) -> Option<usize>
    ensures { result ≡ head_from 0 bytes.now }
{
    for at in 0..bytes.len() {
        let (_, rest) = bytes.split_at(at);
        if ends_head(rest) {
            return Some(at + 4);
        }
    }
    None
}

// The first bytes, of which a head may have so many.
fn front(bytes: &[u8]) -> &[u8]
    ensures { result.now ≡ take most_head bytes.now }
{
    if bytes.len() <= MOST_HEAD {
        return bytes;
    }
    let (front, _) = bytes.split_at(MOST_HEAD);
    front
}

/// How many bytes the head has that some bytes begin with, where it is not too long.
pub(crate) fn head_in(bytes: &[u8]) -> Option<usize>
    ensures { result ≡ head_in bytes.now }
{
    head_of(front(bytes))
}

// A number with one digit more, or one more than the greatest length.
fn as_digit(number: usize, byte: u8) -> usize
    requires digit { 48 ≤ byte }
    requires small { number ≤ MOST_LENGTH + 1 }
    ensures { result ≡ as_digit number byte }
{
    (10 * number + (byte - b'0') as usize).min(MOST_LENGTH + 1)
}

// The number that the digits up to a carriage return are.
fn digits(bytes: &[u8]) -> Option<usize>
    ensures { result ≡ digits 0 bytes.now }
{
    let mut number = 0;
    for at in 0..bytes.len() {
        if bytes[at] < b'0' || b'9' < bytes[at] {
            return if bytes[at] == b'\r' {
                Some(number)
            } else {
                None
            };
        }
        number = as_digit(number, bytes[at]);
    }
    None
}

// The number after the name of a field.
fn number_in(bytes: &[u8]) -> Option<usize>
    ensures { result ≡ number_in bytes.now }
{
    for at in 0..bytes.len() {
        if bytes[at] != b' ' && bytes[at] != b'\t' {
            return if b'0' <= bytes[at] && bytes[at] <= b'9' {
                let (_, rest) = bytes.split_at(at);
                digits(rest)
            } else {
                None
            };
        }
    }
    None
}

// The name of the field that says how long a message is.
const NAME: [u8; 15] = *b"content-length:";

// Whether bytes begin with these letters, small or great.
fn begins_with(name: &[u8], bytes: &[u8]) -> bool
    ensures { result ≡ begins_with name.now bytes.now }
{
    for at in 0..name.len() {
        if at >= bytes.len() {
            return false;
        }
        if bytes[at].to_ascii_lowercase() != name[at] {
            return false;
        }
    }
    true
}

// Whether the field that says how long the message is begins here.
fn is_named(bytes: &[u8]) -> bool
    ensures { result ≡ is_named bytes.now }
{
    begins_with(&NAME, bytes)
}

// What stands after the name of the field.
fn after_name(field: &[u8]) -> &[u8]
    ensures { result.now ≡ drop 15 field.now }
{
    let (_, rest) = field.split_at(field.len().min(15));
    rest
}

/// How many bytes a message has by its head. Other fields are passed over, and so is each one of this name but the first. Each length over 10^18 counts as
/// 10^18 + 1.
pub(crate) fn content_length(head: &[u8]) -> Option<usize>
    ensures { result ≡ content_length head.now }
{
    let mut starts = true;
    for at in 0..head.len() {
        let (_, field) = head.split_at(at);
        if starts && is_named(field) {
            return number_in(after_name(field));
        }
        starts = head[at] == b'\n';
    }
    None
}
