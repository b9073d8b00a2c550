//! What stands in messages, and values that go out.

use go_lsp_core::positions::{Position, Range};
use serde_json::{Value, json};
use std::alloc::{AllocError, Global};

/// The text that stands in a value at a path, as `/params/name`.
pub fn text_at<'v>(value: &'v Value, path: &str) -> Option<&'v str> {
    match value.pointer(path) {
        Some(found) => found.as_str(),
        None => None,
    }
}

/// The number that stands in a value at a path.
pub fn count_at(value: &Value, path: &str) -> Option<usize> {
    match value.pointer(path) {
        Some(found) => match found.as_u64() {
            Some(number) => usize::try_from(number).ok(),
            None => None,
        },
        None => None,
    }
}

/// The list that stands in a value at a path.
pub fn list_at<'v>(value: &'v Value, path: &str) -> Option<&'v Vec<Value>> {
    match value.pointer(path) {
        Some(found) => found.as_array(),
        None => None,
    }
}

/// The position that a value is: its line and its character.
fn position_in(value: &Value) -> Option<Position> {
    let line = count_at(value, "/line")?;
    let character = count_at(value, "/character")?;
    Some(Position { line, character })
}

/// The position that stands in a value at a path.
pub fn position_at(value: &Value, path: &str) -> Option<Position> {
    match value.pointer(path) {
        Some(found) => position_in(found),
        None => None,
    }
}

/// The range that a value is: its start and its end.
pub fn range_in(value: &Value) -> Option<Range> {
    let start = position_at(value, "/start")?;
    let end = position_at(value, "/end")?;
    Some(Range { start, end })
}

/// The range that stands in a value at a path.
pub fn range_at(value: &Value, path: &str) -> Option<Range> {
    match value.pointer(path) {
        Some(found) => range_in(found),
        None => None,
    }
}

fn position_value(alloc: Global, position: Position) -> Result<Value, AllocError> {
    json!(in alloc; {"line": position.line, "character": position.character})
}

/// A range as a value.
pub fn range_value(alloc: Global, range: Range) -> Result<Value, AllocError> {
    let start = position_value(alloc, range.start)?;
    let end = position_value(alloc, range.end)?;
    json!(in alloc; {"start": start, "end": end})
}
