//! What may be blanked of a text that does not parse.
ghost use Rattle.std.specs.Prelude.{◌≡◌};
ghost use Rattle.go_recovery_core.specs.standin.Lines.{last_of, line_end, line_start, lines_of};

use crate::standin::outline::{Brace, braces_in};
use crate::standin::part::Interval;
use std::alloc::{AllocError, Global};

// Where the line starts that an offset is in.
fn line_start(bytes: &[u8], offset: usize) -> usize
    ensures { result ≡ line_start bytes.now offset }
{
    let mut start = 0;
    for at in 0..offset.min(bytes.len()) {
        if bytes[at] == b'\n' {
            start = at + 1;
        }
    }
    start
}

// Where the line ends that an offset is in.
fn line_end(bytes: &[u8], offset: usize) -> usize
    ensures { result ≡ line_end bytes.now offset }
{
    for at in offset.min(bytes.len())..bytes.len() {
        if bytes[at] == b'\n' {
            return at;
        }
    }
    bytes.len()
}

// The offset of the last byte of a part, or where the part is if it has none.
fn last_of(part: Interval) -> usize
    ensures { result ≡ last_of part }
{
    part.start.max(part.end.saturating_sub(1))
}

/// The lines that a part touches.
pub(crate) fn lines_of(bytes: &[u8], part: Interval) -> Interval
    ensures { result ≡ lines_of bytes.now part }
{
    Interval {
        start: line_start(bytes, part.start),
        end: line_end(bytes, last_of(part)),
    }
}

// The last line before an offset, with what stands on it.
fn line_before(bytes: &[u8], offset: usize) -> Option<Interval> {
    let mut found = None;
    let mut start = 0;
    let mut is_blank = true;
    for at in 0..offset.min(bytes.len()) {
        if bytes[at] == b'\n' {
            if !is_blank {
                found = Some(Interval { start, end: at });
            }
            start = at + 1;
            is_blank = true;
        } else if !bytes[at].is_ascii_whitespace() {
            is_blank = false;
        }
    }
    found
}

// Where the innermost brace opens that is not closed before an offset.
fn open_before(
    alloc: Global,
    braces: &[Brace],
    offset: usize,
) -> Result<Option<usize>, AllocError> {
    let mut open = Vec::new(alloc);
    for brace in braces {
        if brace.at >= offset {
            break;
        }
        if brace.opens {
            open.push(brace.at)?;
        } else {
            open.pop();
        }
    }
    Ok(open.pop())
}

// Where the first brace closes that no brace opens from an offset on.
fn close_from(braces: &[Brace], offset: usize) -> Option<usize> {
    let mut depth = 0usize;
    for brace in braces {
        if brace.at >= offset {
            if brace.opens {
                depth = depth.saturating_add(1);
            } else if depth == 0 {
                return Some(brace.at);
            } else {
                depth -= 1;
            }
        }
    }
    None
}

// What stands between the innermost braces around an offset.
fn body_around(
    alloc: Global,
    braces: &[Brace],
    offset: usize,
) -> Result<Option<Interval>, AllocError> {
    let Some(open) = open_before(alloc, braces, offset)? else {
        return Ok(None);
    };
    let Some(end) = close_from(braces, offset) else {
        return Ok(None);
    };
    Ok(Some(Interval {
        start: open.saturating_add(1),
        end,
    }))
}

// The declaration around an offset: the last one that starts there or before.
fn declaration_around(declarations: &[Interval], offset: usize) -> Option<Interval> {
    let mut found = None;
    for declaration in declarations {
        if declaration.start <= offset {
            found = Some(*declaration);
        }
    }
    found
}

// What stands between the first brace of a declaration and the last.
fn body_of(braces: &[Brace], declaration: Interval) -> Option<Interval> {
    let mut open = None;
    let mut close = None;
    for brace in braces {
        if declaration.start <= brace.at && brace.at < declaration.end {
            if brace.opens {
                if open.is_none() {
                    open = Some(brace.at);
                }
            } else {
                close = Some(brace.at);
            }
        }
    }
    match (open, close) {
        (Some(open), Some(end)) if open < end => Some(Interval {
            start: open.saturating_add(1),
            end,
        }),
        _ => None,
    }
}

// Adds a part, if there is one.
fn note(parts: &mut Vec<Interval>, part: Option<Interval>) -> Result<(), AllocError> {
    match part {
        Some(part) => {
            parts.push(part)?;
            Ok(())
        }
        None => Ok(()),
    }
}

// Adds the lines at an offset: its line, the one before it, and both.
fn note_lines(bytes: &[u8], offset: usize, parts: &mut Vec<Interval>) -> Result<(), AllocError> {
    let line = lines_of(
        bytes,
        Interval {
            start: offset,
            end: offset,
        },
    );
    parts.push(line)?;
    if let Some(before) = line_before(bytes, line.start) {
        parts.push(before)?;
        parts.push(Interval {
            start: before.start,
            end: line.end,
        })?;
    }
    Ok(())
}

// Adds the body of a declaration.
fn note_body(
    braces: &[Brace],
    declaration: Option<Interval>,
    parts: &mut Vec<Interval>,
) -> Result<(), AllocError> {
    match declaration {
        Some(declaration) => note(parts, body_of(braces, declaration)),
        None => Ok(()),
    }
}

// The declaration before the one at whose start the parser stopped, which lacks its end.
fn unended(declarations: &[Interval], fault: usize) -> Option<Interval> {
    match declaration_around(declarations, fault) {
        Some(next) if next.start == fault && fault > 0 => {
            declaration_around(declarations, fault - 1)
        }
        _ => None,
    }
}

// The declarations around an edit, around the place where the parser stopped, and before that one.
fn near(
    declarations: &[Interval],
    edited: Option<Interval>,
    fault: usize,
) -> [Option<Interval>; 3] {
    let at_edit = match edited {
        Some(edited) => declaration_around(declarations, edited.start),
        None => None,
    };
    let at_fault = declaration_around(declarations, fault);
    let before = match at_fault {
        Some(declaration) if declaration.start > 0 => {
            declaration_around(declarations, declaration.start - 1)
        }
        _ => None,
    };
    [at_edit, at_fault, before]
}

/// The parts that may be blanked beside the lines of the edit, the likeliest first; see [`stand_in`](crate::standin::stand_in). They are 13 at most.
pub(crate) fn likely_parts(
    alloc: Global,
    bytes: &[u8],
    declarations: &[Interval],
    edited: Option<Interval>,
    fault: usize,
) -> Result<Vec<Interval>, AllocError> {
    let braces = braces_in(alloc, bytes)?;
    let braces = braces.as_slice();
    let mut parts = Vec::new(alloc);
    let unended = unended(declarations, fault);
    note_body(braces, unended, &mut parts)?;
    note(&mut parts, unended)?;
    note_lines(bytes, fault, &mut parts)?;
    if let Some(edited) = edited {
        note(&mut parts, body_around(alloc, braces, edited.start)?)?;
    }
    note(&mut parts, body_around(alloc, braces, fault)?)?;
    let near = near(declarations, edited, fault);
    for declaration in near {
        note_body(braces, declaration, &mut parts)?;
    }
    for declaration in near {
        note(&mut parts, declaration)?;
    }
    Ok(parts)
}
