//! How many characters integer literals have.
ghost use Rattle.std.specs.Prelude.{◌≡◌, ◌≤◌, ◌+◌, length, IfSome};
ghost use Rattle.go_token_core.specs.Numbers.{first_digit};
ghost use Rattle.go_scan_core.specs.mirrors.Numbers.{digits_run, named_radix, number_len, zero_len};

/// Whether a digit of the radix stands at the front.
fn begins_digit(text: &[char], radix: u32) -> bool
    requires low { 2 ≤ radix }
    requires high { radix ≤ 16 }
    ensures { result ≡ first_digit radix text.now }
{
    match text {
        [c, ..] => c.is_digit(radix),
        [] => false,
    }
}

/// How many characters at the front are digits of the radix, or `_` before such a digit.
fn run_width(text: &[char], radix: u32) -> usize
    requires low { 2 ≤ radix }
    requires high { radix ≤ 16 }
    ensures value { result ≡ digits_run radix text.now }
    ensures within { result ≤ length text.now }
{
    for (i, c) in text.iter().enumerate() {
        let (_, behind) = text.split_at(i + 1);
        if !(c.is_digit(radix) || *c == '_' && begins_digit(behind, radix)) {
            return i;
        }
    }
    text.len()
}

/// The radix that the letter behind a first 0 names, if one does.
fn radix_named(text: &[char]) -> Option<u32>
    ensures value { result ≡ named_radix text.now }
    ensures low { IfSome result (λ r. 2 ≤ r) }
    ensures high { IfSome result (λ r. r ≤ 16) }
    ensures some { IfSome result (λ r. 1 ≤ length text.now) }
{
    match text {
        ['x' | 'X', ..] => Some(16),
        ['b' | 'B', ..] => Some(2),
        ['o' | 'O', ..] => Some(8),
        _ => None,
    }
}

/// How many characters the integer literal has whose first 0 stands before this text.
#[tactic(auto, unfolding(crate::specs::mirrors::Numbers::zero_len))]
fn zero_width(text: &[char]) -> usize
    ensures value { result ≡ zero_len text.now }
    ensures within { result ≤ 1 + length text.now }
{
    let Some(radix) = radix_named(text) else {
        return 1 + run_width(text, 8);
    };
    let (_, digits) = text.split_at(1);
    let count = run_width(digits, radix);
    if count == 0 { 1 } else { 2 + count }
}

/// How many characters the integer literal at the front has.
#[tactic(auto, unfolding(crate::specs::mirrors::Numbers::number_len))]
pub fn number_width(text: &[char]) -> usize
    ensures value { result ≡ number_len text.now }
    ensures within { result ≤ length text.now }
{
    if text.is_empty() {
        return 0;
    }
    let (_, behind) = text.split_at(1);
    if text[0] == '0' {
        return zero_width(behind);
    }
    1 + run_width(behind, 10)
}
