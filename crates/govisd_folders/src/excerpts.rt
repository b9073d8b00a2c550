//! Lines of the source below a message.

use crate::painting::{RED, paint, unpaint};
use crate::spots::Mark;
use go_folder_core::push_shown;
use govisd_disk::{push, push_number};
use std::alloc::{AllocError, Global};
use unicode_width::UnicodeWidthChar;

/// How many bytes of a line are shown before what is marked at most.
const BEFORE: usize = 100;

/// How many bytes of a line are shown from the start of what is marked on at most.
const AFTER: usize = 60;

/// How many columns a tab takes.
const TAB: usize = 4;

// The first place in a text from an offset on where a character begins, or the text's end.
fn boundary(text: &str, offset: usize) -> usize {
    for place in offset..text.len() {
        if text.is_char_boundary(place) {
            return place;
        }
    }
    text.len()
}

// The part of a text between two offsets, as far as characters begin there.
fn part(text: &str, start: usize, end: usize) -> &str {
    match text.get(boundary(text, start)..boundary(text, end)) {
        Some(part) => part,
        None => "",
    }
}

// The first line of a text, without its end.
fn first_line(text: &str) -> &str {
    match text.split_once('\n') {
        Some((line, _)) => line,
        None => text,
    }
}

// How many columns of a terminal a character takes.
fn width_of(letter: char) -> usize {
    if letter == '\t' {
        return TAB;
    }
    letter.width().unwrap_or(4)
}

fn width_in(text: &str) -> usize {
    let mut width: usize = 0;
    for letter in text.chars() {
        width = width.saturating_add(width_of(letter));
    }
    width
}

// Adds a piece as often as a number says.
fn push_times(out: &mut String, piece: &str, times: usize) -> Result<(), AllocError> {
    for _ in 0..times {
        push(out, piece)?;
    }
    Ok(())
}

// Adds a character of the source: of a tab its blanks.
fn push_letter(alloc: Global, out: &mut String, letter: char) -> Result<(), AllocError> {
    if letter == '\t' {
        return push_times(out, " ", TAB);
    }
    let mut text = String::new(alloc);
    text.push(letter)?;
    push_shown(out, text.as_str())
}

// Adds a part of a line of the source, with blanks for its tabs.
fn push_source(alloc: Global, out: &mut String, text: &str) -> Result<(), AllocError> {
    for letter in text.chars() {
        push_letter(alloc, out, letter)?;
    }
    Ok(())
}

// How many digits a number has.
fn digits(number: usize) -> usize {
    let mut count: usize = 1;
    let mut rest = number / 10;
    for _ in 0..20 {
        if rest == 0 {
            return count;
        }
        rest = rest / 10;
        count = count.saturating_add(1);
    }
    count
}

/// A line of the source, and marks below it.
#[derive(Drop)]
pub(crate) struct Excerpt {
    /// The line, after its number.
    pub(crate) line: String,
    /// Blanks, and carets below what is marked.
    pub(crate) marks: String,
}

// Adds the line of the source, after its number.
fn push_line(
    alloc: Global,
    line: &mut String,
    number: usize,
    front: &str,
    rest: &str,
) -> Result<(), AllocError> {
    push_number(alloc, line, number)?;
    push(line, " | ")?;
    push_source(alloc, line, front)?;
    push_source(alloc, line, rest)
}

// Adds carets below what is marked of the line of a number.
fn push_marks(
    marks: &mut String,
    number: usize,
    has_color: bool,
    front: &str,
    marked: &str,
) -> Result<(), AllocError> {
    push_times(marks, " ", digits(number))?;
    push(marks, " | ")?;
    push_times(marks, " ", width_in(front))?;
    paint(marks, has_color, RED)?;
    push_times(marks, "^", width_in(marked).max(1))?;
    unpaint(marks, has_color)
}

/// The line of a text in which what is marked begins, or what stands there around it, and below it carets below what is marked, as far as the line goes.
///
/// # Errors
///
/// `AllocError` for want of memory.
pub(crate) fn excerpt_of(
    alloc: Global,
    has_color: bool,
    text: &str,
    mark: Mark<'_>,
) -> Result<Excerpt, AllocError> {
    let start = mark.offset.saturating_sub(mark.at.column.saturating_sub(1));
    let from = start.max(mark.offset.saturating_sub(BEFORE));
    let front = part(text, from, mark.offset);
    let after = mark.offset.saturating_add(AFTER);
    let rest = first_line(part(text, mark.offset, after));
    let word = first_line(mark.text);
    let marked = if word.len() > rest.len() { rest } else { word };
    let mut line = String::new(alloc);
    push_line(alloc, &mut line, mark.at.line, front, rest)?;
    let mut marks = String::new(alloc);
    push_marks(&mut marks, mark.at.line, has_color, front, marked)?;
    Ok(Excerpt { line, marks })
}
