//! Why a text has a fault of its tokens.
ghost use Rattle.std.specs.Prelude.{◌≡◌};
ghost use Rattle.std.specs.Option.{option_map};
ghost use Rattle.std.specs.Str.{chars};
ghost use Rattle.go_recovery_core.specs.mend.Lexical.{cause_of, character_cause, first_cause, front_cause, literal_at, literal_cause, open_at, open_cause, rest_of};

use crate::mend::extent::{escape_extent, line_len, literal_len, rune_len};
use crate::mend::flaw::{Lexical, LexicalCause};
use crate::mend::mending::is_boundary;
use crate::mend::number::{number_cause, number_len};
use go_parse_core::SynFault;
use go_tree_nodes::text_core::Rule;

// What stands from an offset on, and nothing where that is no place between characters.
fn rest_of(text: &str, offset: usize) -> &str
    ensures { result.now ≡ rest_of text.now offset }
{
    if is_boundary(text, offset) {
        return &text[offset..];
    }
    ""
}

// Why a character begins no token.
fn character_cause(c: char) -> LexicalCause
    ensures { result ≡ character_cause c }
{
    if c == '\u{feff}' {
        return LexicalCause::ByteOrderMark;
    }
    if c == '\0' {
        return LexicalCause::Nul;
    }
    LexicalCause::NoToken(c)
}

fn first_cause(rest: &str) -> Option<LexicalCause>
    ensures { result ≡ first_cause (chars rest.now) }
{
    match rest.chars().next() {
        Some(c) => Some(character_cause(c)),
        None => None,
    }
}

// What has no end that begins with this byte.
fn open_cause(first: u8) -> Option<LexicalCause>
    ensures { result ≡ open_cause first }
{
    if first == b'"' {
        return Some(LexicalCause::OpenString);
    }
    if first == b'`' {
        return Some(LexicalCause::OpenRawString);
    }
    if first == b'/' {
        return Some(LexicalCause::OpenComment);
    }
    None
}

// Why a number at the front is refused.
fn front_cause(rest: &[u8]) -> LexicalCause
    ensures { result ≡ front_cause rest.now }
{
    let (number, _) = rest.split_at(number_len(rest));
    number_cause(number)
}

// Why a literal is refused that begins with this byte.
fn literal_cause(first: u8, rest: &[u8]) -> LexicalCause
    ensures { result ≡ literal_cause first rest.now }
{
    if first == b'\'' {
        return LexicalCause::Rune;
    }
    if first == b'"' {
        return LexicalCause::Escape;
    }
    front_cause(rest)
}

fn open_at(rest: &[u8]) -> Option<LexicalCause>
    ensures { result ≡ open_at rest.now }
{
    match rest {
        [first, ..] => open_cause(*first),
        [] => None,
    }
}

fn literal_at(rest: &[u8]) -> Option<LexicalCause>
    ensures { result ≡ literal_at rest.now }
{
    match rest {
        [first, ..] => Some(literal_cause(*first, rest)),
        [] => None,
    }
}

// Why a text has a fault of a rule from here on.
fn cause_of(rule: Rule, rest: &str) -> Option<LexicalCause>
    ensures { result ≡ cause_of rule rest.now }
{
    match rule {
        Rule::L1 => first_cause(rest),
        Rule::L2 => open_at(rest.as_bytes()),
        Rule::L3 => literal_at(rest.as_bytes()),
        _ => None,
    }
}

// The bytes that a cause is about, from the first one that begins here: where they begin and where they end.
fn extent(cause: LexicalCause, rest: &str) -> (usize, usize) {
    let bytes = rest.as_bytes();
    match cause {
        LexicalCause::NoToken(c) => (0, c.len_utf8()),
        LexicalCause::ByteOrderMark | LexicalCause::Nul => (0, 0),
        LexicalCause::OpenString | LexicalCause::OpenRawString | LexicalCause::OpenComment => {
            (0, line_len(bytes))
        }
        LexicalCause::Rune => (0, rune_len(bytes)),
        LexicalCause::Escape => escape_extent(bytes),
        _ => (0, literal_len(bytes)),
    }
}

/// Why a text has a fault of its tokens, by the rule and the offset of the fault, as [`parse`](go_parse_core::parse) and [`scan`](go_scan_core::scan) tell
/// them. None where the rule is not L1, L2 or L3, or where no such fault begins at the offset. It takes time linear in what stands behind the
/// offset.
pub fn lexical(text: &str, fault: SynFault) -> Option<Lexical>
    ensures { option_map (λ l. l.cause) result ≡ cause_of fault.rule (rest_of text.now fault.offset) }
{
    let rest = rest_of(text, fault.offset);
    let Some(cause) = cause_of(fault.rule, rest) else {
        return None;
    };
    let (from, to) = extent(cause, rest);
    Some(Lexical {
        cause,
        from: fault.offset.saturating_add(from),
        to: fault.offset.saturating_add(to),
    })
}
