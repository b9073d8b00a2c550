//! Faults in lines: the place and the rule of each, in each form, with the words after them.
ghost use Rattle.std.specs.Prelude.{◌≡◌, ◌++◌, IfOk, OnOk, IsTrue, true, is_some, string_bytes};
ghost use Rattle.govisd_folders.specs.Telling.{AddsBelow, AddsBeside, AddsForm, AddsLine as AddsOneLine, AddsNote, AddsNotes, AddsText, AddsWords, comma_text, github_front, IsInLine, json_front, level_text, line_front, painted_front, plain_front, position_text, result_text, sarif_front};

use crate::unused::Beside;
use crate::words::Words;
use go_explain_core::meaning;
use go_folder_core::{Format, Position};
use go_path_core::text_core::Rule;
use govisd_disk::{push, push_number};
use std::alloc::{AllocError, Global};

/// The first line of a text, without its end.
fn first_line(text: &str) -> &str
    ensures { IsInLine result.now }
{
    match text.split_once('\n') {
        Some((line, _)) => line,
        None => text,
    }
}

// Adds words and the end of their line. Of words that have more lines the first is taken.
fn push_words(out: &mut String, words: &str) -> Result<(), AllocError>
    ensures { OnOk result (AddsWords (string_bytes out.old) (string_bytes out.new)) }
{
    push(out, first_line(words))?;
    push(out, "\n")
}

// Adds lines that begin with a blank.
fn push_below(out: &mut String, lines: &[String]) -> Result<(), AllocError>
    ensures { OnOk result (AddsBelow (string_bytes out.old) (string_bytes out.new)) }
{
    for line in lines {
        push(out, " ")?;
        push_words(out, line.as_str())?;
    }
    Ok(())
}

/// Adds a place, as `a.go:7:9`.
///
/// # Errors
///
/// `AllocError` for want of memory.
pub(crate) fn push_place(
    alloc: Global,
    out: &mut String,
    file: &str,
    at: Position,
) -> Result<(), AllocError>
    ensures { OnOk result (string_bytes out.new ≡ string_bytes out.old ++ position_text file.now at) }
{
    push(out, file)?;
    push(out, ":")?;
    push_number(alloc, out, at.line)?;
    push(out, ":")?;
    push_number(alloc, out, at.column)
}

// Adds what is said at a place that has no fault.
fn push_note(alloc: Global, out: &mut String, note: &Beside) -> Result<(), AllocError>
    ensures { OnOk result (AddsNote (string_bytes out.old) (string_bytes out.new)) }
{
    push_place(alloc, out, note.file.as_str(), note.at)?;
    push(out, ": note: ")?;
    push_words(out, note.words.as_str())
}

// Adds what is said at such places.
fn push_notes(alloc: Global, out: &mut String, notes: &[Beside]) -> Result<(), AllocError>
    ensures { OnOk result (AddsNotes (string_bytes out.old) (string_bytes out.new)) }
{
    for note in notes {
        push_note(alloc, out, note)?;
    }
    Ok(())
}

/// Adds what is said beside the faults, in a text for a person to read.
///
/// # Errors
///
/// `AllocError` for want of memory.
pub(crate) fn push_beside(
    alloc: Global,
    out: &mut String,
    format: Format,
    notes: &[Beside],
) -> Result<(), AllocError>
    ensures { OnOk result (AddsBeside format (string_bytes out.old) (string_bytes out.new)) }
{
    match format {
        Format::Text => push_notes(alloc, out, notes),
        Format::Json => Ok(()),
        Format::Github => Ok(()),
        Format::Sarif => Ok(()),
    }
}

// Adds the place and the number of a rule.
fn push_plain(
    alloc: Global,
    out: &mut String,
    file: &str,
    at: Position,
    rule: Rule,
) -> Result<(), AllocError>
    ensures { OnOk result (string_bytes out.new ≡ string_bytes out.old ++ plain_front file.now at rule) }
{
    push_place(alloc, out, file, at)?;
    push(out, ": ")?;
    push(out, rule.number())?;
    push(out, " ")
}

// The same in colours.
fn push_painted(
    alloc: Global,
    out: &mut String,
    file: &str,
    at: Position,
    rule: Rule,
) -> Result<(), AllocError>
    ensures { OnOk result (string_bytes out.new ≡ string_bytes out.old ++ painted_front file.now at rule) }
{
    push(out, "\u{1b}[1m")?;
    push_place(alloc, out, file, at)?;
    push(out, ":\u{1b}[0m \u{1b}[1;31m")?;
    push(out, rule.number())?;
    push(out, "\u{1b}[0m ")
}

// Adds what the line of a fault begins with.
fn push_front(
    alloc: Global,
    out: &mut String,
    has_color: bool,
    file: &str,
    at: Position,
    rule: Rule,
) -> Result<(), AllocError>
    ensures { OnOk result (string_bytes out.new ≡ string_bytes out.old ++ line_front has_color file.now at rule) }
{
    if has_color {
        return push_painted(alloc, out, file, at, rule);
    }
    push_plain(alloc, out, file, at, rule)
}

// Adds the first members of the JSON object of a fault.
fn push_object(
    alloc: Global,
    out: &mut String,
    package: &str,
    file: &str,
    at: Position,
    offset: usize,
    rule: Rule,
) -> Result<(), AllocError>
    ensures { OnOk result (string_bytes out.new ≡ string_bytes out.old ++ json_front «package».now file.now at offset rule) }
{
    push(out, "{\"column\":")?;
    push_number(alloc, out, at.column)?;
    push(out, ",\"file\":\"")?;
    push(out, file)?;
    push(out, "\",\"line\":")?;
    push_number(alloc, out, at.line)?;
    push(out, ",\"meaning\":\"")?;
    push(out, meaning(rule))?;
    push(out, "\",\"offset\":")?;
    push_number(alloc, out, offset)?;
    push(out, ",\"package\":\"")?;
    push(out, package)?;
    push(out, "\",\"rule\":\"")?;
    push(out, rule.number())?;
    push(out, "\"")
}

// What a command of GitHub's workflows begins with.
fn level_text(follows: bool) -> &'static str
    ensures { result.now ≡ level_text follows }
{
    if follows {
        return "::notice title=";
    }
    "::error title="
}

// Adds the place of a fault as a command of GitHub's workflows has it.
fn push_command(
    alloc: Global,
    out: &mut String,
    follows: bool,
    file: &str,
    at: Position,
    rule: Rule,
) -> Result<(), AllocError>
    ensures { OnOk result (string_bytes out.new ≡ string_bytes out.old ++ github_front follows file.now at rule) }
{
    push(out, level_text(follows))?;
    push(out, rule.number())?;
    push(out, ",file=")?;
    push(out, file)?;
    push(out, ",line=")?;
    push_number(alloc, out, at.line)?;
    push(out, ",col=")?;
    push_number(alloc, out, at.column)
}

// The level of a result of SARIF.
fn result_text(follows: bool) -> &'static str
    ensures { result.now ≡ result_text follows }
{
    if follows {
        return "\",\"level\":\"note";
    }
    "\",\"level\":\"error"
}

// What stands between a result of SARIF and the one before it.
fn comma_text(is_first: bool) -> &'static str
    ensures { result.now ≡ comma_text is_first }
{
    if is_first {
        return "";
    }
    ","
}

// Adds the place of a fault as a result of SARIF has it.
fn push_result(
    alloc: Global,
    out: &mut String,
    is_first: bool,
    follows: bool,
    file: &str,
    at: Position,
    offset: usize,
    rule: Rule,
) -> Result<(), AllocError>
    ensures { OnOk result (string_bytes out.new ≡ string_bytes out.old ++ sarif_front is_first follows file.now at offset rule) }
{
    push(out, comma_text(is_first))?;
    push(out, "{\"ruleId\":\"")?;
    push(out, rule.number())?;
    push(out, result_text(follows))?;
    push(
        out,
        "\",\"locations\":[{\"physicalLocation\":{\"artifactLocation\":{\"uri\":\"",
    )?;
    push(out, file)?;
    push(
        out,
        "\",\"uriBaseId\":\"%SRCROOT%\"},\"region\":{\"startLine\":",
    )?;
    push_number(alloc, out, at.line)?;
    push(out, ",\"byteOffset\":")?;
    push_number(alloc, out, offset)
}

// Adds a fault as lines for a person to read.
fn push_text(
    alloc: Global,
    out: &mut String,
    has_color: bool,
    file: &str,
    at: Position,
    rule: Rule,
    words: &Words,
) -> Result<(), AllocError>
    ensures { OnOk result (AddsText (line_front has_color file.now at rule) (string_bytes out.old) (string_bytes out.new)) }
{
    push_front(alloc, out, has_color, file, at, rule)?;
    push_words(out, words.line.as_str())?;
    push_below(out, words.below.as_slice())
}

// Adds a fault as a JSON object in a line.
fn push_json(
    alloc: Global,
    out: &mut String,
    package: &str,
    file: &str,
    at: Position,
    offset: usize,
    rule: Rule,
    words: &Words,
) -> Result<(), AllocError>
    ensures { OnOk result (AddsOneLine (json_front «package».now file.now at offset rule) (string_bytes out.old) (string_bytes out.new)) }
{
    push_object(alloc, out, package, file, at, offset, rule)?;
    push_words(out, words.line.as_str())
}

// Adds a fault as a command of GitHub's workflows.
fn push_github(
    alloc: Global,
    out: &mut String,
    follows: bool,
    file: &str,
    at: Position,
    rule: Rule,
    words: &Words,
) -> Result<(), AllocError>
    ensures { OnOk result (AddsOneLine (github_front follows file.now at rule) (string_bytes out.old) (string_bytes out.new)) }
{
    push_command(alloc, out, follows, file, at, rule)?;
    push_words(out, words.line.as_str())
}

// Adds a fault as a result of SARIF.
fn push_sarif(
    alloc: Global,
    out: &mut String,
    is_first: bool,
    follows: bool,
    file: &str,
    at: Position,
    offset: usize,
    rule: Rule,
    words: &Words,
) -> Result<(), AllocError>
    ensures { OnOk result (AddsOneLine (sarif_front is_first follows file.now at offset rule) (string_bytes out.old) (string_bytes out.new)) }
{
    push_result(alloc, out, is_first, follows, file, at, offset, rule)?;
    push_words(out, words.line.as_str())
}

/// Adds a fault in a form: its place and its rule, and the words after them.
///
/// # Errors
///
/// `AllocError` for want of memory.
pub(crate) fn push_form(
    alloc: Global,
    out: &mut String,
    format: Format,
    has_color: bool,
    is_first: bool,
    follows: bool,
    package: &str,
    file: &str,
    at: Position,
    offset: usize,
    rule: Rule,
    words: &Words,
) -> Result<(), AllocError>
    ensures { OnOk result (AddsForm format has_color is_first follows «package».now file.now at offset rule (string_bytes out.old) (string_bytes out.new)) }
{
    match format {
        Format::Text => push_text(alloc, out, has_color, file, at, rule, words),
        Format::Json => push_json(alloc, out, package, file, at, offset, rule, words),
        Format::Github => push_github(alloc, out, follows, file, at, rule, words),
        Format::Sarif => push_sarif(alloc, out, is_first, follows, file, at, offset, rule, words),
    }
}
