//! Texts in which a name is written whole at a place where it is half written, so that they parse.

use go_graph_core::parse_core::{ParseError, tree_of};
use go_recovery_core::standin::{Interval, StandIn, stand_in};
use govisd_documents::{is_name_byte, name_end, name_start};
use std::alloc::{AllocError, Global};

/// The name that is written where one is wanted. No declaration has it but by chance.
pub const NAME: &str = "govisdName";

/// How a name may be used at a place.
#[derive(Clone, Copy, PartialEq, Eq)]
pub(crate) enum Form {
    /// As a value.
    Value,
    /// As what is called.
    Call,
    /// Before a dot.
    Dot,
    /// As the key of an element.
    Key,
}

impl Form {
    /// The number of a form, by which the editor hands it back.
    pub fn number(self) -> u8 {
        match self {
            Form::Value => 0,
            Form::Call => 1,
            Form::Dot => 2,
            Form::Key => 3,
        }
    }

    /// The form of a number.
    pub fn of_number(number: usize) -> Form {
        match number {
            1 => Form::Call,
            2 => Form::Dot,
            3 => Form::Key,
            _ => Form::Value,
        }
    }

    // What stands behind the name.
    fn tail(self) -> &'static str {
        match self {
            Form::Value => "",
            Form::Call => "()",
            Form::Dot => ".x",
            Form::Key => ": 0",
        }
    }
}

/// Where a name is half written in a text.
#[derive(Clone, Copy)]
pub(crate) struct HalfName {
    /// The offset of its first byte.
    pub start: usize,
    /// The offset after its last byte.
    pub end: usize,
    /// Whether it stands in no comment and in no string.
    pub is_code: bool,
    /// The offset of the comment or the string that it stands in, or else of its first byte.
    pub outside: usize,
    /// Whether a dot stands before it, but for blanks and comments.
    pub is_behind_dot: bool,
    /// Whether `{` or `,` stands before it, but for these.
    pub may_be_key: bool,
}

/// The place of a half name, or that of the comment or the string that it stands in.
pub(crate) fn outside(half: HalfName) -> HalfName {
    HalfName {
        start: half.outside,
        ..half
    }
}

// Where the line ends that an offset lies in.
fn line_end(bytes: &[u8], offset: usize) -> usize {
    for at in offset..bytes.len() {
        if bytes[at] == b'\n' {
            return at;
        }
    }
    bytes.len()
}

// Where the line begins that an offset lies in.
fn line_start(bytes: &[u8], offset: usize) -> usize {
    let (front, _) = bytes.split_at(offset.min(bytes.len()));
    for at in (0..front.len()).rev() {
        if front[at] == b'\n' {
            return at.saturating_add(1);
        }
    }
    0
}

/// Where a walk over bytes is that passes over strings and comments.
#[derive(Clone, Copy)]
pub(crate) enum Within {
    Code,
    /// In code, after a slash.
    Slash,
    /// In a string that this quote ends.
    Quoted(u8),
    /// In such a string, after a backslash.
    Escaped(u8),
    /// In a comment that ends with its line.
    Line,
    /// In a comment that a star and a slash end.
    Block,
    /// In such a comment, after a star.
    Star,
}

impl Within {
    /// Whether it is in no comment and in no string.
    pub fn is_code(self) -> bool {
        matches!(self, Within::Code | Within::Slash)
    }
}

// Where a walk is after a byte of code.
fn after_code(byte: u8) -> Within {
    match byte {
        b'"' | b'`' | b'\'' => Within::Quoted(byte),
        b'/' => Within::Slash,
        _ => Within::Code,
    }
}

// Where it is after a byte that follows a slash of code.
fn after_slash(byte: u8) -> Within {
    match byte {
        b'/' => Within::Line,
        b'*' => Within::Block,
        _ => after_code(byte),
    }
}

// Where it is after a byte of a string.
fn after_quoted(quote: u8, byte: u8) -> Within {
    if byte == quote || (byte == b'\n' && quote != b'`') {
        Within::Code
    } else if byte == b'\\' && quote != b'`' {
        Within::Escaped(quote)
    } else {
        Within::Quoted(quote)
    }
}

// Where it is after a byte of a comment that may have several lines, where a star stands before that byte or not.
fn after_block(is_star: bool, byte: u8) -> Within {
    match byte {
        b'*' => Within::Star,
        b'/' if is_star => Within::Code,
        _ => Within::Block,
    }
}

/// Where the walk is after one more byte.
pub(crate) fn step(within: Within, byte: u8) -> Within {
    match within {
        Within::Code => after_code(byte),
        Within::Slash => after_slash(byte),
        Within::Quoted(quote) => after_quoted(quote, byte),
        Within::Escaped(_) if byte == b'\n' => Within::Code,
        Within::Escaped(quote) => Within::Quoted(quote),
        Within::Line => { if byte == b'\n' { Within::Code } else { within } }
        Within::Block => after_block(false, byte),
        Within::Star => after_block(true, byte),
    }
}

/// What stands before a place of a text.
#[derive(Clone, Copy)]
struct Front {
    /// Where a walk is there.
    within: Within,
    /// The offset of the last comment or string that begins before it.
    opened: usize,
    /// The last byte before the place that is no blank and stands in no comment; of a string its last quote counts.
    last: Option<u8>,
}

// The offset of the comment or the string in which a walk is after the byte at an offset, where that is the first one after code.
fn opened_at(within: Within, at: usize) -> usize {
    match within {
        Within::Line | Within::Block => at.saturating_sub(1),
        _ => at,
    }
}

// What stands before the place after some bytes.
fn front_at(bytes: &[u8]) -> Front {
    let mut within = Within::Code;
    let mut opened = 0;
    let mut last = None;
    for (at, byte) in bytes.iter().enumerate() {
        let after = step(within, *byte);
        if within.is_code() && !after.is_code() {
            opened = opened_at(after, at);
        }
        if after.is_code() && *byte != b'/' && !byte.is_ascii_whitespace() {
            last = Some(*byte);
        }
        within = after;
    }
    Front {
        within,
        opened,
        last,
    }
}

/// The name that is half written at an offset of a text.
pub(crate) fn half_name(text: &str, offset: usize) -> HalfName {
    let bytes = text.as_bytes();
    let start = name_start(bytes, offset);
    let (front, _) = bytes.split_at(start.min(bytes.len()));
    let Front {
        within,
        opened,
        last,
    } = front_at(front);
    HalfName {
        start,
        end: name_end(bytes, offset),
        is_code: within.is_code(),
        outside: if within.is_code() { start } else { opened },
        is_behind_dot: last == Some(b'.'),
        may_be_key: last == Some(b'{') || last == Some(b','),
    }
}

// Whether bytes end with a byte.
fn ends_with(bytes: &[u8], byte: u8) -> bool {
    match bytes.last() {
        Some(last) => *last == byte,
        None => false,
    }
}

// Takes account of a bracket: what closes it is noted, or is closed.
fn note_bracket(closers: &mut Vec<u8>, byte: u8) -> Result<(), AllocError> {
    match byte {
        b'(' => closers.push(b')')?,
        b'[' => closers.push(b']')?,
        b'{' => closers.push(b'}')?,
        b')' | b']' | b'}' => {
            if ends_with(closers, byte) {
                let _closed = closers.pop();
            }
        }
        _ => {}
    }
    Ok(())
}

// What closes the brackets that are open behind some bytes, the outermost first.
fn open_brackets(alloc: Global, bytes: &[u8]) -> Result<Vec<u8>, AllocError> {
    let mut closers = Vec::new(alloc);
    let mut within = Within::Code;
    for byte in bytes {
        if within.is_code() {
            note_bracket(&mut closers, *byte)?;
        }
        within = step(within, *byte);
    }
    Ok(closers)
}

// Adds what closes brackets, the innermost first.
fn close(text: &mut String, closers: &[u8], blank: &str) -> Result<(), AllocError> {
    for byte in closers.iter().rev() {
        text.push_str(blank)?;
        match byte {
            b')' => text.push_str(")")?,
            b']' => text.push_str("]")?,
            _ => text.push_str("}")?,
        }
    }
    Ok(())
}

// What stands behind a word with which bytes begin.
fn behind<'b>(bytes: &'b [u8], word: &[u8]) -> Option<&'b [u8]> {
    if !bytes.starts_with(word) {
        return None;
    }
    let (_, rest) = bytes.split_at(word.len().min(bytes.len()));
    Some(rest)
}

// Whether bytes begin with a whole word.
fn begins_with(bytes: &[u8], word: &[u8]) -> bool {
    match behind(bytes, word) {
        Some(rest) => match rest.first() {
            Some(byte) => !is_name_byte(*byte),
            None => true,
        },
        None => false,
    }
}

// Whether a line is the head of a statement whose block is not begun.
fn lacks_block(line: &[u8]) -> bool {
    let bare = line.trim_ascii_start();
    let rest = match behind(bare, b"} else ".as_slice()) {
        Some(rest) => rest,
        None => bare,
    };
    begins_with(rest, b"if".as_slice()) || begins_with(rest, b"for".as_slice())
}

// How often a byte stands among bytes.
fn count_of(bytes: &[u8], byte: u8) -> usize {
    let mut count: usize = 0;
    for other in bytes {
        if *other == byte {
            count = count.saturating_add(1);
        }
    }
    count
}

// The block behind a head that lacks one, behind the semicolon that a head of three parts still lacks.
fn empty_block(line: &[u8]) -> &'static str {
    if count_of(line, b';') == 1 && begins_with(line.trim_ascii_start(), b"for".as_slice()) {
        "; {}"
    } else {
        " {}"
    }
}

// The text up to an offset.
fn front_of(text: &str, offset: usize) -> &str {
    match text.split_at_checked(offset) {
        Some((front, _)) => front,
        None => text,
    }
}

// The text from an offset on.
fn back_of(text: &str, offset: usize) -> &str {
    match text.split_at_checked(offset) {
        Some((_, back)) => back,
        None => "",
    }
}

// The text up to a half name, with the whole name, what stands behind it in a form, and what closes the brackets of its line.
fn written(
    alloc: Global,
    text: &str,
    half: HalfName,
    name: &str,
    form: Form,
) -> Result<String, AllocError> {
    let front = front_of(text, half.start);
    let line = back_of(front, line_start(front.as_bytes(), front.len()));
    let closers = open_brackets(alloc, line.as_bytes())?;
    let mut all = String::from_str(alloc, front)?;
    all.push_str(name)?;
    all.push_str(form.tail())?;
    close(&mut all, &closers, "")?;
    if lacks_block(line.as_bytes()) && !line.contains('{') {
        all.push_str(empty_block(line.as_bytes()))?;
    }
    Ok(all)
}

// The lines behind that of a half name.
fn lines_behind(text: &str, half: HalfName) -> &str {
    back_of(text, line_end(text.as_bytes(), half.end))
}

// Whether a line begins with the keyword of a declaration.
fn begins_declaration(line: &[u8]) -> bool {
    line.starts_with(b"func".as_slice())
        || line.starts_with(b"type".as_slice())
        || line.starts_with(b"var".as_slice())
        || line.starts_with(b"const".as_slice())
}

// Where the next declaration begins behind an offset: a line that begins with one of their keywords.
fn next_declaration(bytes: &[u8], offset: usize) -> usize {
    for at in offset..bytes.len() {
        let (front, rest) = bytes.split_at(at);
        if ends_with(front, b'\n') && begins_declaration(rest) {
            return at;
        }
    }
    bytes.len()
}

// A text with the whole name in which the line of the half name ends behind it and the other lines stay.
fn with_lines(
    alloc: Global,
    text: &str,
    half: HalfName,
    name: &str,
    form: Form,
) -> Result<String, AllocError> {
    let mut all = written(alloc, text, half, name, form)?;
    all.push_str(lines_behind(text, half))?;
    Ok(all)
}

// A text with the whole name in which the declaration of the half name ends behind it and the others stay.
fn with_declarations(
    alloc: Global,
    text: &str,
    half: HalfName,
    name: &str,
    form: Form,
) -> Result<String, AllocError> {
    let mut all = written(alloc, text, half, name, form)?;
    let closers = open_brackets(alloc, all.as_str().as_bytes())?;
    close(&mut all, &closers, "\n")?;
    all.push_str("\n")?;
    let next = next_declaration(text.as_bytes(), half.end);
    all.push_str(back_of(text, next))?;
    Ok(all)
}

// Whether a text parses.
fn parses(alloc: Global, text: &str) -> Result<bool, AllocError> {
    match tree_of(alloc, text) {
        Ok(_) => Ok(true),
        Err(ParseError::Memory) => Err(AllocError),
        Err(ParseError::Fault(_)) => Ok(false),
    }
}

// Whether an offset lies in one of parts of a text.
fn is_within(parts: &[Interval], offset: usize) -> bool {
    for part in parts {
        if part.start <= offset && offset < part.end {
            return true;
        }
    }
    false
}

// What stands in for a text, where the byte at an offset stays.
fn stood_in(alloc: Global, text: &str, offset: usize) -> Result<Option<String>, AllocError> {
    match stand_in(alloc, text, None)? {
        Some(StandIn { text, blanked }) => {
            if is_within(&blanked, offset) {
                return Ok(None);
            }
            Ok(Some(text))
        }
        None => Ok(None),
    }
}

/// A text that parses and has a name at the place of a half name, used in a form; none where none is found. What stands before the name is as it was.
///
/// # Errors
///
/// `AllocError` where memory is wanting.
pub(crate) fn formed(
    alloc: Global,
    text: &str,
    half: HalfName,
    name: &str,
    form: Form,
) -> Result<Option<String>, AllocError> {
    let first = with_lines(alloc, text, half, name, form)?;
    if parses(alloc, first.as_str())? {
        return Ok(Some(first));
    }
    let second = with_declarations(alloc, text, half, name, form)?;
    if parses(alloc, second.as_str())? {
        return Ok(Some(second));
    }
    match stood_in(alloc, first.as_str(), half.start)? {
        Some(text) => Ok(Some(text)),
        None => stood_in(alloc, second.as_str(), half.start),
    }
}
