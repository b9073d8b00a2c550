//! The braces and the declarations of a text, also of one that does not parse.
ghost use Rattle.std.specs.Prelude.{◌≡◌, ◌&&◌, ◌++◌, ◌∷◌, [], IfOk, OnOk, drop, if◌then◌else◌, true};
ghost use Rattle.go_recovery_core.specs.declared.standin.outline.Lexical.TheVariants.{Code};
ghost use Rattle.go_recovery_core.specs.standin.Outlines.{after, after_code, after_quoted, begins_with, declarations, first_or, is_code, is_name_byte, is_past_name, is_start, parts_from, starts_from};

use crate::standin::part::Interval;
use std::alloc::{AllocError, Global};

/// A brace of the text, outside of comments and strings.
#[derive(Clone, Copy)]
pub(crate) struct Brace {
    /// The offset of the brace.
    pub(crate) at: usize,
    /// Whether it opens.
    pub(crate) opens: bool,
}

// What a byte of the text stands in.
#[derive(Clone, Copy)]
enum Lexical {
    Code,
    // After a `/` in code.
    Slash,
    LineComment,
    Comment,
    // After a `*` in a comment.
    Star,
    Text,
    // After a `\` in a string.
    TextEscape,
    Rune,
    // After a `\` in a rune.
    RuneEscape,
    RawText,
}

// Whether code stands there.
fn is_code(state: Lexical) -> bool
    ensures { result ≡ is_code state }
{
    match state {
        Lexical::Code => true,
        _ => false,
    }
}

// What stands after a byte in code.
fn after_code(byte: u8) -> Lexical
    ensures { result ≡ after_code byte }
{
    match byte {
        b'"' => Lexical::Text,
        b'\'' => Lexical::Rune,
        b'`' => Lexical::RawText,
        b'/' => Lexical::Slash,
        _ => Lexical::Code,
    }
}

// What stands after a byte of a string or a rune that this byte ends. Neither goes over the end of a line.
fn after_quoted(byte: u8, quote: u8, inside: Lexical, escape: Lexical) -> Lexical
    ensures { result ≡ after_quoted byte quote inside escape }
{
    if byte == quote || byte == b'\n' {
        Lexical::Code
    } else if byte == b'\\' {
        escape
    } else {
        inside
    }
}

// What stands after a byte.
fn after(state: Lexical, byte: u8) -> Lexical
    ensures { result ≡ after state byte }
{
    match state {
        Lexical::Code => after_code(byte),
        Lexical::Slash => match byte {
            b'/' => Lexical::LineComment,
            b'*' => Lexical::Comment,
            _ => after_code(byte),
        },
        Lexical::LineComment => match byte {
            b'\n' => Lexical::Code,
            _ => Lexical::LineComment,
        },
        Lexical::Comment => match byte {
            b'*' => Lexical::Star,
            _ => Lexical::Comment,
        },
        Lexical::Star => match byte {
            b'*' => Lexical::Star,
            b'/' => Lexical::Code,
            _ => Lexical::Comment,
        },
        Lexical::Text => after_quoted(byte, b'"', Lexical::Text, Lexical::TextEscape),
        Lexical::TextEscape => after_quoted(byte, b'\n', Lexical::Text, Lexical::Text),
        Lexical::Rune => after_quoted(byte, b'\'', Lexical::Rune, Lexical::RuneEscape),
        Lexical::RuneEscape => after_quoted(byte, b'\n', Lexical::Rune, Lexical::Rune),
        Lexical::RawText => match byte {
            b'`' => Lexical::Code,
            _ => Lexical::RawText,
        },
    }
}

// Whether a byte belongs to a name.
fn is_name_byte(byte: u8) -> bool
    ensures { result ≡ is_name_byte byte }
{
    byte.is_ascii_alphanumeric() || byte == b'_'
}

// Whether no more of a name stands at an offset.
fn is_past_name(bytes: &[u8], at: usize) -> bool
    ensures { result ≡ is_past_name (drop at bytes.now) }
{
    at >= bytes.len() || !is_name_byte(bytes[at])
}

// Whether bytes begin with a word, and with no more of a name.
fn begins_with(word: &[u8], bytes: &[u8]) -> bool
    ensures { result ≡ begins_with word.now bytes.now }
{
    for at in 0..word.len() {
        if at >= bytes.len() {
            return false;
        }
        if bytes[at] != word[at] {
            return false;
        }
    }
    is_past_name(bytes, word.len())
}

// Whether a declaration of the package block starts at the start of this line.
fn is_start(line: &[u8]) -> bool
    ensures { result ≡ is_start line.now }
{
    begins_with(b"func", line)
        || begins_with(b"type", line)
        || begins_with(b"var", line)
        || begins_with(b"const", line)
        || begins_with(b"import", line)
}

// Whether a declaration starts where this line does.
fn starts_here(state: Lexical, first: bool, line: &[u8]) -> bool
    ensures { result ≡ (is_code state && first) && is_start line.now }
{
    is_code(state) && first && is_start(line)
}

// Adds a start, where there is one.
fn note_start(starts: &mut Vec<usize>, at: usize, here: bool) -> Result<(), AllocError>
    ensures { OnOk result (starts.new.items ≡ if here then starts.old.items ++ at ∷ [] else starts.old.items) }
{
    if here {
        starts.push(at)?;
    }
    Ok(())
}

// Where the declarations of a text start.
fn starts_in(alloc: Global, bytes: &[u8]) -> Result<Vec<usize>, AllocError>
    ensures { IfOk result (λ v. v.items ≡ starts_from Code true 0 bytes.now) }
{
    let mut starts = Vec::new(alloc);
    let mut state = Lexical::Code;
    let mut first = true;
    for at in 0..bytes.len() {
        let (_, rest) = bytes.split_at(at);
        note_start(&mut starts, at, starts_here(state, first, rest))?;
        first = bytes[at] == b'\n';
        state = after(state, bytes[at]);
    }
    Ok(starts)
}

/// The declarations of the package block of a text: each goes from a line outside of comments and strings that begins with a keyword of theirs up to the
/// next such line, and the last one up to the end of the text.
pub(crate) fn declarations_in(alloc: Global, bytes: &[u8]) -> Result<Vec<Interval>, AllocError>
    ensures { IfOk result (λ v. v.items ≡ declarations bytes.now) }
{
    let starts = starts_in(alloc, bytes)?;
    parts_from(alloc, starts.as_slice(), bytes.len())
}

// The parts that start there, each up to the next one, and the last one up to the end.
fn parts_from(alloc: Global, starts: &[usize], end: usize) -> Result<Vec<Interval>, AllocError>
    ensures { IfOk result (λ v. v.items ≡ parts_from starts.now end) }
{
    let mut parts = Vec::new(alloc);
    for at in 0..starts.len() {
        parts.push(Interval {
            start: starts[at],
            end: first_or(starts, at + 1, end),
        })?;
    }
    Ok(parts)
}

// The start at a place, or the end of the text where there is none.
fn first_or(starts: &[usize], at: usize, end: usize) -> usize
    ensures { result ≡ first_or (drop at starts.now) end }
{
    if at < starts.len() { starts[at] } else { end }
}

/// The braces of a text, outside of comments and strings, from left to right.
pub(crate) fn braces_in(alloc: Global, bytes: &[u8]) -> Result<Vec<Brace>, AllocError> {
    let mut braces = Vec::new(alloc);
    let mut state = Lexical::Code;
    for at in 0..bytes.len() {
        let byte = bytes[at];
        if is_code(state) && (byte == b'{' || byte == b'}') {
            braces.push(Brace {
                at,
                opens: byte == b'{',
            })?;
        }
        state = after(state, byte);
    }
    Ok(braces)
}
