//! Why a number is refused.
ghost use Rattle.std.specs.Prelude.{◌≡◌, ◌≤◌, length};
ghost use Rattle.std.specs.List.{list_any};
ghost use Rattle.go_recovery_core.specs.mend.Numbers.{is_above_seven, is_float, is_hexadecimal, is_i, is_number_byte, is_octal, is_point_or_e, is_point_or_p, number_cause, number_len};

use crate::mend::flaw::LexicalCause;

// The fewest bytes of a number above 2^63 - 1.
const LARGE: usize = 18;

fn is_number_byte(byte: u8) -> bool
    ensures { result ≡ is_number_byte byte }
{
    byte.is_ascii_alphanumeric() || byte == b'_' || byte == b'.'
}

/// How many bytes at the front are letters, digits, `_` or `.`.
pub(crate) fn number_len(bytes: &[u8]) -> usize
    ensures value { result ≡ number_len bytes.now }
    ensures within { result ≤ length bytes.now }
{
    bytes
        .iter()
        .take_while(|byte| is_number_byte(**byte))
        .count()
}

fn is_point_or_e(byte: u8) -> bool
    ensures { result ≡ is_point_or_e byte }
{
    byte == b'.' || byte == b'e' || byte == b'E'
}

fn is_point_or_p(byte: u8) -> bool
    ensures { result ≡ is_point_or_p byte }
{
    byte == b'.' || byte == b'p' || byte == b'P'
}

fn is_above_seven(byte: u8) -> bool
    ensures { result ≡ is_above_seven byte }
{
    byte > b'7'
}

fn has_point_or_e(number: &[u8]) -> bool
    ensures { result ≡ list_any is_point_or_e number.now }
{
    number.iter().any(|byte| is_point_or_e(*byte))
}

fn has_point_or_p(number: &[u8]) -> bool
    ensures { result ≡ list_any is_point_or_p number.now }
{
    number.iter().any(|byte| is_point_or_p(*byte))
}

fn has_above_seven(number: &[u8]) -> bool
    ensures { result ≡ list_any is_above_seven number.now }
{
    number.iter().any(|byte| is_above_seven(*byte))
}

fn has_i(number: &[u8]) -> bool
    ensures { result ≡ list_any is_i number.now }
{
    number.iter().any(|byte| *byte == b'i')
}

// Whether a number begins with `0x`.
fn is_hexadecimal(number: &[u8]) -> bool
    ensures { result ≡ is_hexadecimal number.now }
{
    match number {
        [first, second, ..] => *first == b'0' && (*second == b'x' || *second == b'X'),
        _ => false,
    }
}

// Whether a number begins with `0` and a digit.
fn is_octal(number: &[u8]) -> bool
    ensures { result ≡ is_octal number.now }
{
    match number {
        [first, second, ..] => *first == b'0' && second.is_ascii_digit(),
        _ => false,
    }
}

fn is_float(number: &[u8]) -> bool
    ensures { result ≡ is_float number.now }
{
    if is_hexadecimal(number) {
        return has_point_or_p(number);
    }
    has_point_or_e(number)
}

/// Why a number is refused that is spelled so.
pub(crate) fn number_cause(number: &[u8]) -> LexicalCause
    ensures { result ≡ number_cause number.now }
{
    if has_i(number) {
        return LexicalCause::Imaginary;
    }
    if is_float(number) {
        return LexicalCause::Float;
    }
    if is_octal(number) && has_above_seven(number) {
        return LexicalCause::OctalDigit;
    }
    if number.len() >= LARGE {
        return LexicalCause::TooLarge;
    }
    LexicalCause::Malformed
}
