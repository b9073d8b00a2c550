//! The words that stand after the place and the rule of a fault, in each form.

use crate::excerpts::{Excerpt, excerpt_of};
use crate::looks::Look;
use crate::painting::{BLUE, GREEN, paint, unpaint};
use crate::selecting::{Told, follows};
use crate::spots::{Mark, Spot, file_shown, mark_of, word_at};
use go_diagnostic_core::snap_core::PlacedFault;
use go_diagnostic_core::{LineKind, Message};
use go_explain_core::meaning;
use go_folder_core::{Format, push_command, push_json, push_shown};
use go_graph_core::Workspace;
use go_path_core::text_core::add;
use govisd_disk::{Scope, push, push_number, source_of};
use std::alloc::{AllocError, Global};

/// What is said of a fault after its place and its rule.
#[derive(Drop)]
pub(crate) struct Words {
    /// What stands in the same line.
    pub(crate) line: String,
    /// Lines below it.
    pub(crate) below: Vec<String>,
}

// The word that a line of a message begins with.
fn kind_word(kind: LineKind) -> &'static str {
    match kind {
        LineKind::First => "first",
        LineKind::Declared => "declared",
        LineKind::Have => "have",
        LineKind::Want => "want",
        LineKind::Note => "note",
        LineKind::Help => "help",
    }
}

// The colour of such a word.
fn kind_color(kind: LineKind) -> &'static str {
    match kind {
        LineKind::Help => GREEN,
        _ => BLUE,
    }
}

// Adds a piece, between two others.
fn push_between(
    out: &mut String,
    before: &str,
    piece: &str,
    after: &str,
) -> Result<(), AllocError> {
    push(out, before)?;
    push(out, piece)?;
    push(out, after)
}

// Adds a number after a piece.
fn push_count(
    alloc: Global,
    out: &mut String,
    before: &str,
    number: usize,
) -> Result<(), AllocError> {
    push(out, before)?;
    push_number(alloc, out, number)
}

// Adds a text as JSON has it, after a piece.
fn push_quoted(out: &mut String, before: &str, text: &str) -> Result<(), AllocError> {
    push(out, before)?;
    push_json(out, text)
}

// What a fault is called: by its message, or by what its rule means.
fn headline<'a>(spot: &Spot<'_>, message: Option<&'a Message>) -> &'a str {
    match message {
        Some(message) => message.headline.as_str(),
        None => meaning(spot.rule),
    }
}

// Adds a line below that of a fault, after its first blank.
fn push_said(
    line: &mut String,
    has_color: bool,
    kind: LineKind,
    text: &str,
) -> Result<(), AllocError> {
    push(line, "   ")?;
    paint(line, has_color, kind_color(kind))?;
    push(line, kind_word(kind))?;
    push(line, ":")?;
    unpaint(line, has_color)?;
    push(line, " ")?;
    push_shown(line, text)
}

// A line below that of a fault, after its first blank.
fn below_text(
    alloc: Global,
    has_color: bool,
    kind: LineKind,
    text: &str,
) -> Result<String, AllocError> {
    let mut line = String::new(alloc);
    push_said(&mut line, has_color, kind, text)?;
    Ok(line)
}

// Adds the line of the source in which what is amiss begins, and marks below it.
fn add_excerpt(
    alloc: Global,
    has_color: bool,
    spot: &Spot<'_>,
    message: &Message,
    below: &mut Vec<String>,
) -> Result<(), AllocError> {
    let mark = mark_of(spot, Some(message));
    let Excerpt { line, marks } = excerpt_of(alloc, has_color, spot.text, mark)?;
    add(below, line)?;
    add(below, marks)
}

// Adds the line of the source where that is shown, and the lines of a message.
fn add_below(
    alloc: Global,
    look: Look,
    spot: &Spot<'_>,
    message: &Message,
    below: &mut Vec<String>,
) -> Result<(), AllocError> {
    if look.source {
        add_excerpt(alloc, look.color, spot, message, below)?;
    }
    for said in &message.lines {
        let line = below_text(alloc, look.color, said.kind, said.text.as_str())?;
        add(below, line)?;
    }
    Ok(())
}

// The words of a text: the message, the line of the source where that is shown, and the lines of the message.
fn text_words(
    alloc: Global,
    look: Look,
    spot: &Spot<'_>,
    message: Option<&Message>,
) -> Result<Words, AllocError> {
    let mut line = String::new(alloc);
    push_shown(&mut line, headline(spot, message))?;
    let mut below = Vec::new(alloc);
    if let Some(message) = message {
        add_below(alloc, look, spot, message, &mut below)?;
    }
    Ok(Words { line, below })
}

// Adds the fault that another follows from, or null.
fn push_root(
    alloc: Global,
    out: &mut String,
    scope: &Scope<'_>,
    workspace: &Workspace,
    root: Option<PlacedFault>,
) -> Result<(), AllocError> {
    push(out, ",\"cause\":")?;
    let Some(root) = root else {
        return push(out, "null");
    };
    let Some((package, source)) = source_of(workspace, root) else {
        return push(out, "null");
    };
    let file = file_shown(alloc, scope, package, source.name())?;
    push_between(out, "{\"file\":\"", file.as_str(), "\",\"offset\":")?;
    push_number(alloc, out, root.offset)?;
    push_between(out, ",\"rule\":\"", root.rule.number(), "\"}")
}

// Adds a line of a message that helps, or another one.
fn push_member(out: &mut String, kind: LineKind, fits: bool, text: &str) -> Result<(), AllocError> {
    match kind {
        LineKind::Help => push(
            out,
            if fits {
                "{\"fits\":true"
            } else {
                "{\"fits\":false"
            },
        )?,
        _ => push_between(out, "{\"kind\":\"", kind_word(kind), "\"")?,
    }
    push_quoted(out, ",\"text\":\"", text)?;
    push(out, "\"}")
}

// Adds those lines of a message that help, or the others.
fn push_members(
    out: &mut String,
    message: Option<&Message>,
    are_helps: bool,
) -> Result<(), AllocError> {
    let Some(message) = message else {
        return Ok(());
    };
    let mut separator = "";
    for line in &message.lines {
        if (line.kind == LineKind::Help) == are_helps {
            push(out, separator)?;
            separator = ",";
            push_member(out, line.kind, line.fits(), line.text.as_str())?;
        }
    }
    Ok(())
}

// The first line of a message of a kind.
fn line_of(message: &Message, kind: LineKind) -> Option<&str> {
    for line in &message.lines {
        if line.kind == kind {
            return Some(line.text.as_str());
        }
    }
    None
}

// Adds what a line of a message of a kind says, where there is one.
fn push_kind(
    out: &mut String,
    message: &Message,
    kind: LineKind,
    separator: &str,
) -> Result<bool, AllocError> {
    let Some(text) = line_of(message, kind) else {
        return Ok(false);
    };
    push(out, separator)?;
    push_between(out, "\"", kind_word(kind), "\":\"")?;
    push_json(out, text)?;
    push(out, "\"")?;
    Ok(true)
}

// Adds what there is and what is wanted, by a message that says so.
fn push_types(out: &mut String, message: Option<&Message>) -> Result<(), AllocError> {
    push(out, ",\"types\":{")?;
    if let Some(message) = message {
        let has = push_kind(out, message, LineKind::Have, "")?;
        push_kind(out, message, LineKind::Want, if has { "," } else { "" })?;
    }
    push(out, "}")
}

// Adds where what is amiss lies.
fn push_at(alloc: Global, out: &mut String, mark: Mark<'_>) -> Result<(), AllocError> {
    let end = mark.offset.saturating_add(mark.text.len());
    push_count(alloc, out, ",\"at\":{\"column\":", mark.at.column)?;
    push_count(alloc, out, ",\"end\":", end)?;
    push_count(alloc, out, ",\"line\":", mark.at.line)?;
    push_count(alloc, out, ",\"offset\":", mark.offset)?;
    push(out, "}")
}

// How much a fault counts.
fn severity(told: Told) -> &'static str {
    if follows(told) {
        return "note";
    }
    "error"
}

// Adds the members that say what a fault is.
fn push_saying(
    out: &mut String,
    spot: &Spot<'_>,
    name: &str,
    told: Told,
    message: Option<&Message>,
) -> Result<(), AllocError> {
    push(out, ",\"helps\":[")?;
    push_members(out, message, true)?;
    push_quoted(out, "],\"message\":\"", headline(spot, message))?;
    push_quoted(out, "\",\"name\":\"", name)?;
    push(out, "\",\"notes\":[")?;
    push_members(out, message, false)?;
    push_between(out, "],\"severity\":\"", severity(told), "\"")?;
    push_types(out, message)
}

// Adds the further members of an object.
fn push_object_words(
    alloc: Global,
    out: &mut String,
    scope: &Scope<'_>,
    workspace: &Workspace,
    spot: &Spot<'_>,
    told: Told,
    message: Option<&Message>,
) -> Result<(), AllocError> {
    let name = word_at(spot.text, spot.offset);
    let end = spot.offset.saturating_add(name.len());
    push_at(alloc, out, mark_of(spot, message))?;
    let root = if follows(told) { told.root } else { None };
    push_root(alloc, out, scope, workspace, root)?;
    push_count(alloc, out, ",\"end\":", end)?;
    push_saying(out, spot, name, told, message)?;
    push(out, "}")
}

// Adds what stands after the place of a command of GitHub's workflows.
fn push_command_words(
    alloc: Global,
    out: &mut String,
    spot: &Spot<'_>,
    message: Option<&Message>,
) -> Result<(), AllocError> {
    let name = word_at(spot.text, spot.offset);
    let end = spot.at.column.saturating_add(name.len());
    push_count(alloc, out, ",endColumn=", end)?;
    push(out, "::")?;
    push_command(out, headline(spot, message))?;
    if let Some(message) = message {
        for said in &message.lines {
            push_between(out, "%0A", kind_word(said.kind), ": ")?;
            push_command(out, said.text.as_str())?;
        }
    }
    Ok(())
}

/// The bytes of a line in front of a place that are counted as characters at most.
const COUNTED: usize = 400;

// The column of a place in characters, where it is not too far from its line's start; and else in bytes.
fn column_of(spot: &Spot<'_>) -> usize {
    let before = spot.at.column.saturating_sub(1);
    if before > COUNTED {
        return spot.at.column;
    }
    match spot
        .text
        .get(spot.offset.saturating_sub(before)..spot.offset)
    {
        Some(front) => front.chars().count().saturating_add(1),
        None => spot.at.column,
    }
}

// Adds what stands after the place of a result of SARIF.
fn push_result_words(
    alloc: Global,
    out: &mut String,
    spot: &Spot<'_>,
    message: Option<&Message>,
) -> Result<(), AllocError> {
    let name = word_at(spot.text, spot.offset);
    let column = column_of(spot);
    let end = column.saturating_add(name.chars().count());
    push_count(alloc, out, ",\"byteLength\":", name.len())?;
    push_count(alloc, out, ",\"startColumn\":", column)?;
    push_count(alloc, out, ",\"endColumn\":", end)?;
    push_quoted(
        out,
        "}}}],\"message\":{\"text\":\"",
        headline(spot, message),
    )?;
    if let Some(message) = message {
        for said in &message.lines {
            push_between(out, "\\n", kind_word(said.kind), ": ")?;
            push_json(out, said.text.as_str())?;
        }
    }
    push(out, "\"}}")
}

// Adds what stands in the same line after the place of a fault, in a form that a tool reads.
fn push_form_words(
    alloc: Global,
    out: &mut String,
    format: Format,
    scope: &Scope<'_>,
    workspace: &Workspace,
    spot: &Spot<'_>,
    told: Told,
    message: Option<&Message>,
) -> Result<(), AllocError> {
    match format {
        Format::Text => Ok(()),
        Format::Json => push_object_words(alloc, out, scope, workspace, spot, told, message),
        Format::Github => push_command_words(alloc, out, spot, message),
        Format::Sarif => push_result_words(alloc, out, spot, message),
    }
}

/// What is said of a fault after its place and its rule: what its message says, or else what its rule means.
///
/// # Errors
///
/// `AllocError` for want of memory.
pub(crate) fn words_of(
    alloc: Global,
    look: Look,
    scope: &Scope<'_>,
    workspace: &Workspace,
    spot: &Spot<'_>,
    told: Told,
    message: Option<&Message>,
) -> Result<Words, AllocError> {
    if let Format::Text = look.format {
        return text_words(alloc, look, spot, message);
    }
    let mut line = String::new(alloc);
    push_form_words(
        alloc,
        &mut line,
        look.format,
        scope,
        workspace,
        spot,
        told,
        message,
    )?;
    Ok(Words {
        line,
        below: Vec::new(alloc),
    })
}
