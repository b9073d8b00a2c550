//! The place of a fault, as it is written.

use crate::lines::push_place;
use go_diagnostic_core::snap_core::PlacedFault;
use go_diagnostic_core::{Marked, Message};
use go_folder_core::{Position, below, position_of};
use go_graph_core::Workspace;
use go_path_core::text_core::Rule;
use govisd_disk::{Scope, folder_of, is_below, push, source_of};
use std::alloc::{AllocError, Global};

/// The place of a fault, as it is written.
#[derive(Clone, Copy)]
pub(crate) struct Spot<'a> {
    /// The text of the file.
    pub(crate) text: &'a str,
    pub(crate) at: Position,
    pub(crate) offset: usize,
    pub(crate) rule: Rule,
}

/// The path of a file, from the folder of a scope where it lies there or below it, and else with the path of its package.
pub(crate) fn file_shown(
    alloc: Global,
    scope: &Scope<'_>,
    package: &str,
    name: &str,
) -> Result<String, AllocError> {
    if is_below(scope.package, package) {
        return below(alloc, folder_of(scope.package, package), name);
    }
    below(alloc, package, name)
}

/// Adds the place of a fault, as `a.go:7:9`.
pub(crate) fn push_fault_spot(
    alloc: Global,
    out: &mut String,
    scope: &Scope<'_>,
    workspace: &Workspace,
    fault: PlacedFault,
) -> Result<(), AllocError> {
    let Some((package, source)) = source_of(workspace, fault) else {
        return Ok(());
    };
    let file = file_shown(alloc, scope, package, source.name())?;
    let at = position_of(source.text(), fault.offset);
    push_place(alloc, out, file.as_str(), at)
}

/// Adds the place and the rule of a fault, as `a.go:7:9 N1`.
pub(crate) fn push_fault_place(
    alloc: Global,
    out: &mut String,
    scope: &Scope<'_>,
    workspace: &Workspace,
    fault: PlacedFault,
) -> Result<(), AllocError> {
    push_fault_spot(alloc, out, scope, workspace, fault)?;
    push(out, " ")?;
    push(out, fault.rule.number())
}

// Whether a byte may stand in a name or in a number.
fn is_word(byte: u8) -> bool {
    byte.is_ascii_alphanumeric() || byte == b'_' || byte >= 128
}

// The length of what stands in quotation marks at the front of some bytes, as far as its line goes.
fn quoted_len(bytes: &[u8], mark: u8) -> usize {
    let mut is_escape = false;
    for place in 1..bytes.len() {
        let byte = bytes[place];
        if byte == b'\n' {
            return place;
        }
        if is_escape {
            is_escape = false;
        } else if byte == b'\\' {
            is_escape = true;
        } else if byte == mark {
            return place + 1;
        }
    }
    bytes.len()
}

// The length of the word at the front of some bytes.
fn word_len(bytes: &[u8]) -> usize {
    for place in 0..bytes.len() {
        if !is_word(bytes[place]) {
            return place;
        }
    }
    bytes.len()
}

// The length of what stands at the front of some bytes: a name or a number, a text in quotation marks as far as its line goes, or one character.
fn token_len(bytes: &[u8]) -> usize {
    match bytes.first() {
        Some(byte) => {
            if is_word(*byte) {
                return word_len(bytes);
            }
            if *byte == b'"' || *byte == b'`' {
                return quoted_len(bytes, *byte);
            }
            1
        }
        None => 0,
    }
}

/// What stands at an offset of a text: a name or a number, a text in quotation marks as far as its line goes, or one character; nothing at the end.
pub(crate) fn word_at(text: &str, offset: usize) -> &str {
    let Some(rest) = text.get(offset..) else {
        return "";
    };
    match rest.get(..token_len(rest.as_bytes())) {
        Some(word) => word,
        None => "",
    }
}

/// The part of a text that is amiss.
#[derive(Clone, Copy)]
pub(crate) struct Mark<'a> {
    /// Where it begins.
    pub(crate) at: Position,
    /// The same, in bytes from the start of the text.
    pub(crate) offset: usize,
    /// What stands there.
    pub(crate) text: &'a str,
}

// What stands at the place of a fault.
fn token_mark<'a>(spot: &Spot<'a>) -> Mark<'a> {
    Mark {
        at: spot.at,
        offset: spot.offset,
        text: word_at(spot.text, spot.offset),
    }
}

// A part of the text of a fault, where there is one between its offsets.
fn part_mark<'a>(spot: &Spot<'a>, marked: Marked) -> Mark<'a> {
    match spot.text.get(marked.start..marked.end) {
        Some(text) => Mark {
            at: position_of(spot.text, marked.start),
            offset: marked.start,
            text,
        },
        None => token_mark(spot),
    }
}

/// What is amiss, by what is said of a fault; where that does not say, what stands at the place of the fault.
pub(crate) fn mark_of<'a>(spot: &Spot<'a>, message: Option<&Message>) -> Mark<'a> {
    match message {
        Some(message) => match message.marked {
            Some(marked) => part_mark(spot, marked),
            None => token_mark(spot),
        },
        None => token_mark(spot),
    }
}
