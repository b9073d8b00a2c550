//! The numbers that integer literals write.
ghost use Rattle.std.specs.Prelude.{◌≡◌, ◌≤◌, ℕ, map, IfSome};
ghost use Rattle.go_token_core.specs.Numbers.{integer_value_of, next_number, number_in, radix_of, up_to_greatest};

/// The greatest integer literal.
const GREATEST: u64 = 9223372036854775807;

/// What literals are spelled in: characters, or bytes, each of which stands for the character of its
/// number.
trait AsCharacter: Copy {
    /// The number of the character.
    ghost code: { Self → ℕ };

    /// The character.
    fn character(self) -> char
        ensures { result ≡ code self };
}

impl AsCharacter for char {
    ghost code = { λ c. c };

    fn character(self) -> char {
        self
    }
}

impl AsCharacter for u8 {
    ghost code = { λ b. b };

    fn character(self) -> char {
        char::from(self)
    }
}

/// The number behind one more character, where it is no greater than the greatest literal. A
/// character that is no digit changes nothing.
fn number_behind(value: u64, c: char, radix: u32) -> Option<u64>
    requires low { 2 ≤ radix }
    requires high { radix ≤ 16 }
    requires small { value ≤ 9223372036854775807 }
    ensures value { result ≡ up_to_greatest (next_number radix value c) }
    ensures small { IfSome result (λ n. n ≤ 9223372036854775807) }
{
    let Some(digit) = c.to_digit(radix) else {
        return Some(value);
    };
    let more = value
        .checked_mul(u64::from(radix))?
        .checked_add(u64::from(digit))?;
    if more > GREATEST { None } else { Some(more) }
}

/// The radix of the literal: 16, 2 or 8 where it begins with 0, and 10 otherwise.
fn radix<C: AsCharacter>(text: &[C]) -> u32
    ensures value { result ≡ radix_of (map C.code text.now) }
    ensures low { 2 ≤ result }
    ensures high { result ≤ 16 }
{
    let [first, behind @ ..] = text else {
        return 10;
    };
    if first.character() != '0' {
        return 10;
    }
    let [letter, ..] = behind else {
        return 8;
    };
    match letter.character() {
        'x' | 'X' => 16,
        'b' | 'B' => 2,
        _ => 8,
    }
}

/// The number that the digits among the characters write, where it is no greater than the greatest.
fn number_of<C: AsCharacter>(text: &[C], radix: u32) -> Option<u64>
    requires low { 2 ≤ radix }
    requires high { radix ≤ 16 }
    ensures { result ≡ up_to_greatest (number_in radix (map C.code text.now)) }
{
    let mut value: u64 = 0;
    for c in text {
        value = number_behind(value, c.character(), radix)?;
    }
    Some(value)
}

/// The number that an integer literal writes, where it is no greater than 2^63 - 1.
///
/// Each text has an answer: its base is 16 where it begins with `0x` or `0X`, 2 where it begins with
/// `0b` or `0B`, otherwise 8 where it begins with `0`, and 10 where not. The number is the one that
/// its digits of that base write, in their order; any other character is passed over, wherever it
/// stands. So a text without such a digit, as the empty one, has the number 0, and where the text is
/// an integer literal what is passed over are the letter of its base and each `_`.
pub fn integer_value(spelled: &str) -> Option<u64>
    ensures { result ≡ up_to_greatest (integer_value_of spelled.now) }
{
    let bytes = spelled.as_bytes();
    number_of(bytes, radix(bytes))
}

/// The number that the characters of an integer literal write, where it is no greater than
/// 2^63 - 1: what [`integer_value`] answers to them as a text.
///
/// The Go specification, "Integer literals".
pub fn literal_value(text: &[char]) -> Option<u64>
    ensures { result ≡ up_to_greatest (integer_value_of text.now) }
{
    number_of(text, radix(text))
}
