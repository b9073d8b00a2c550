//! Variables of functions that nothing uses. The Go specification leaves it to compilers whether they are refused, and `go build` refuses them.

use crate::spots::{file_shown, word_at};
use go_diagnostic_core::snap_core::Snapshot;
use go_emit_core::package_core::{FileAnswers, Part};
use go_folder_core::{LineCounter, Position};
use go_graph_core::SourceFile;
use go_path_core::text_core::add;
use go_report_core::answer::Answer;
use govisd_disk::{Scope, has_file};
use std::alloc::{AllocError, Global};

/// At most so many variables are told of.
const MOST: usize = 100;

/// How many occurrences are looked at in a file at most.
const STEPS: usize = 1_000_000;

/// How many names a short declaration is looked through for.
const NAMES: usize = 16;

/// How many bytes of a name are passed over at most.
const NAME_BYTES: usize = 64;

/// How many blanks are passed over at most.
const BLANKS: usize = 32;

/// What is said at a place of a file that has no fault there.
#[derive(Drop)]
pub(crate) struct Beside {
    pub(crate) file: String,
    pub(crate) at: Position,
    pub(crate) words: String,
}

// Whether a byte is a blank, or ends a line.
fn is_blank(byte: u8) -> bool {
    byte == b' ' || byte == b'\t' || byte == b'\n' || byte == b'\r'
}

// Bytes without the blanks that they begin with.
fn without_blanks(bytes: &[u8]) -> &[u8] {
    let mut rest = bytes;
    for _ in 0..BLANKS {
        match rest.split_first() {
            Some((byte, more)) => {
                if !is_blank(*byte) {
                    return rest;
                }
                rest = more;
            }
            None => return rest,
        }
    }
    rest
}

// What stands after a word at an offset of a text.
fn after_word<'t>(text: &'t str, offset: usize, word: &str) -> &'t [u8] {
    match text.as_bytes().get(offset.saturating_add(word.len())..) {
        Some(rest) => without_blanks(rest),
        None => "".as_bytes(),
    }
}

// What stands in front of an offset of a text, without the blanks at its end.
fn front_of(text: &str, offset: usize) -> &[u8] {
    let Some(bytes) = text.as_bytes().get(..offset) else {
        return "".as_bytes();
    };
    let mut front = bytes;
    for _ in 0..BLANKS {
        match front.split_last() {
            Some((byte, less)) => {
                if !is_blank(*byte) {
                    return front;
                }
                front = less;
            }
            None => return front,
        }
    }
    front
}

// Whether the first of some bytes is one that is looked for.
fn begins_with(bytes: &[u8], wanted: u8) -> bool {
    match bytes.first() {
        Some(byte) => *byte == wanted,
        None => false,
    }
}

// Whether the last one is.
fn ends_with(bytes: &[u8], wanted: u8) -> bool {
    match bytes.last() {
        Some(byte) => *byte == wanted,
        None => false,
    }
}

// Whether some bytes begin with `=` and not with `==`.
fn is_equals(bytes: &[u8]) -> bool {
    match bytes.split_first() {
        Some((byte, rest)) => *byte == b'=' && !begins_with(rest, b'='),
        None => false,
    }
}

// Whether the name at an offset is given a value there and not used: `=` stands after it, and no `*` before it.
fn is_set(text: &str, offset: usize, name: &str) -> bool {
    is_equals(after_word(text, offset, name)) && !ends_with(front_of(text, offset), b'*')
}

// Whether a byte may stand in a name.
fn is_name_byte(byte: u8) -> bool {
    byte.is_ascii_alphanumeric() || byte == b'_' || byte >= 128
}

// Bytes without the name that they begin with.
fn without_name(bytes: &[u8]) -> &[u8] {
    let mut rest = bytes;
    for _ in 0..NAME_BYTES {
        match rest.split_first() {
            Some((byte, more)) => {
                if !is_name_byte(*byte) {
                    return rest;
                }
                rest = more;
            }
            None => return rest,
        }
    }
    rest
}

// Whether a short declaration has its names up to here: `:=` stands after them.
fn is_short(after: &[u8]) -> bool {
    let mut rest = after;
    for _ in 0..NAMES {
        if rest.starts_with(b":=".as_slice()) {
            return true;
        }
        match rest.split_first() {
            Some((byte, more)) => {
                if *byte != b',' {
                    return false;
                }
                rest = without_blanks(without_name(without_blanks(more)));
            }
            None => return false,
        }
    }
    false
}

// Whether `var` stands in front.
fn is_after_var(front: &[u8]) -> bool {
    let (before, _) = front.split_at(front.len().saturating_sub(3));
    front.ends_with(b"var".as_slice())
        && match before.last() {
            Some(byte) => !is_name_byte(*byte),
            None => true,
        }
}

// Whether the local at an offset is a variable that is declared in a body: no parameter, no result and no constant.
fn is_variable(text: &str, offset: usize, name: &str) -> bool {
    is_after_var(front_of(text, offset)) || is_short(after_word(text, offset, name))
}

// Whether one of some occurrences uses a name. Each that is looked at takes a step, and where there is none left the name counts as used.
fn is_used(text: &str, name: &str, occurrences: &[Answer], steps: &mut usize) -> bool {
    for answer in occurrences {
        if *steps == 0 {
            return true;
        }
        *steps = steps.saturating_sub(1);
        if word_at(text, answer.offset) == name && !is_set(text, answer.offset, name) {
            return true;
        }
    }
    false
}

// Whether nothing uses the local at an offset, by the occurrences of its file.
fn is_unused(text: &str, offset: usize, answers: &[Answer], steps: &mut usize) -> bool {
    let name = word_at(text, offset);
    if !is_variable(text, offset, name) {
        return false;
    }
    let first = answers.partition_point(|answer| answer.offset <= offset);
    match answers.get(first..) {
        Some(after) => !is_used(text, name, after, steps),
        None => false,
    }
}

// What is said of a variable that nothing uses.
fn words_of(alloc: Global, name: &str) -> Result<String, AllocError> {
    let mut words = String::from_str(alloc, name)?;
    words.push_str(" is declared and not used, which go build refuses")?;
    Ok(words)
}

// Adds the variables of a file that nothing uses.
fn add_file(
    alloc: Global,
    scope: &Scope<'_>,
    path: &str,
    source: &SourceFile,
    made: &FileAnswers,
    found: &mut Vec<Beside>,
) -> Result<(), AllocError> {
    let text = source.text();
    let mut lines = LineCounter::new(text);
    let mut steps = STEPS;
    for local in &made.locals {
        let offset = local.offset;
        if found.len() < MOST && is_unused(text, offset, made.answers.as_slice(), &mut steps) {
            let at = lines.position_of(offset);
            let file = file_shown(alloc, scope, path, source.name())?;
            let words = words_of(alloc, word_at(text, offset))?;
            add(found, Beside { file, at, words })?;
        }
    }
    Ok(())
}

// Adds the variables of a package's files that nothing uses.
fn add_part(
    alloc: Global,
    scope: &Scope<'_>,
    part: &Part,
    found: &mut Vec<Beside>,
) -> Result<(), AllocError> {
    let path = part.path().as_str();
    let files = part.input().package().files();
    for (source, made) in files.iter().zip(part.content().files.as_slice()) {
        if has_file(scope, path, source.name()) {
            add_file(alloc, scope, path, source, &made.answers, found)?;
        }
    }
    Ok(())
}

/// The variables that functions in a scope declare, and that no occurrence after them uses, in order of package, file and place; at most 100. What is
/// declared by a list of `var`, and what has the name of something after it in its file, is passed over.
///
/// # Errors
///
/// `AllocError` for want of memory.
pub(crate) fn unused_in(
    alloc: Global,
    scope: &Scope<'_>,
    snapshot: &Snapshot,
) -> Result<Vec<Beside>, AllocError> {
    let mut found = Vec::new(alloc);
    for part in snapshot.parts() {
        if let Some(part) = part {
            add_part(alloc, scope, part, &mut found)?;
        }
    }
    Ok(found)
}
