//! Escapes of interpreted strings.
ghost use Rattle.std.specs.Prelude.{◌≡◌, ◌≤◌, ◌<◌, ◌^◌, ◌+◌, length, IfSome};
ghost use Rattle.go_token_core.specs.Escapes.{digits_at, simple_of, byte_read, scalar_read, escape_at};

/// What a character or an escape of a string stands for.
#[derive(Clone, Copy)]
pub enum Meaning {
    /// One byte.
    Byte(u8),
    /// A character, in UTF-8.
    Char(char),
}

/// The number that so many digits write behind a number, where it stays within the limit.
#[tactic(auto, using(crate::proofs::EscapeLemmas::digits_zero, crate::proofs::EscapeLemmas::digits_none, crate::proofs::EscapeLemmas::digits_more))]
fn digits(text: &[char], limit: u32, radix: u32, count: usize, value: u32) -> Option<u32>
    requires radix { radix ≤ 16 }
    requires some { 2 ≤ radix }
    requires limit { limit < 2 ^ 21 }
    requires small { value ≤ limit }
    ensures value { result ≡ digits_at text.now limit radix count value }
    ensures within { IfSome result (λ v. v ≤ limit) }
{
    if count == 0 {
        return Some(value);
    }
    match text {
        [] => None,
        [c, rest @ ..] => {
            let Some(digit) = c.to_digit(radix) else {
                return None;
            };
            let more = value * radix + digit;
            if more > limit {
                return None;
            }
            digits(rest, limit, radix, count - 1, more)
        }
    }
}

/// The byte that the letter behind a backslash stands for.
fn simple(c: char) -> Option<u8>
    ensures { result ≡ simple_of c }
{
    match c {
        'a' => Some(7),
        'b' => Some(8),
        'f' => Some(12),
        'n' => Some(10),
        'r' => Some(13),
        't' => Some(9),
        'v' => Some(11),
        '\\' => Some(92),
        '"' => Some(34),
        _ => None,
    }
}

/// The byte of an escape of so many characters.
fn byte_escape(value: Option<u32>, len: usize) -> Option<(Meaning, usize)>
    requires { IfSome value (λ v. v ≤ 255) }
    ensures { result ≡ byte_read len value }
{
    match value {
        Some(v) => Some((Meaning::Byte(v as u8), len)),
        None => None,
    }
}

/// The character of an escape of so many characters.
fn char_escape(value: Option<u32>, len: usize) -> Option<(Meaning, usize)>
    requires { IfSome value (λ v. v ≤ 1114111) }
    ensures { result ≡ scalar_read len value }
{
    match value {
        Some(v) => match char::from_u32(v) {
            Some(c) => Some((Meaning::Char(c), len)),
            None => None,
        },
        None => None,
    }
}

/// What the escape stands for whose backslash is before this text, and how many characters it has
/// behind the backslash.
#[tactic(auto, unfolding(crate::specs::Escapes::escape_at))]
pub fn escape(text: &[char]) -> Option<(Meaning, usize)>
    ensures value { result ≡ escape_at text.now }
    ensures small { IfSome result (λ x. x.1 ≤ 9) }
{
    match text {
        [] => None,
        ['x', rest @ ..] => byte_escape(digits(rest, 255, 16, 2, 0), 3),
        ['u', rest @ ..] => char_escape(digits(rest, 0x10ffff, 16, 4, 0), 5),
        ['U', rest @ ..] => char_escape(digits(rest, 0x10ffff, 16, 8, 0), 9),
        [c, ..] => match simple(*c) {
            Some(b) => Some((Meaning::Byte(b), 1)),
            None => byte_escape(digits(text, 255, 8, 3, 0), 3),
        },
    }
}
