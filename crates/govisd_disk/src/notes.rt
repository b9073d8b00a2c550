//! What is said beside the answer: lines, each of which names what lies at a path.
ghost use Rattle.std.specs.Prelude.{◌≡◌, ◌<◌, ◌/◌, ◌%◌, ◌++◌, IfOk, OnOk, codes, decimal, encode_utf8, false, flat_map, string_bytes};
ghost use Rattle.std.specs.IoError.{error_kind};
ghost use Rattle.std.specs.List.{list_any};
ghost use Rattle.govisd_disk.specs.Notes.{SaysUnread, counts_line, hex_digit, is_control, name_byte, name_or_quotes, none_passed, note_line, passed_line, quoted_name, refusal_line, stands_plain, told_name, wants_memory};

use go_explain_core::meaning;
use go_path_core::text_core::Rule;
use std::alloc::{AllocError, Global};
use std::io;

/// Adds bytes to a text.
///
/// # Errors
///
/// `AllocError` for want of memory.
pub fn push(text: &mut String, piece: &str) -> Result<(), AllocError>
    ensures { OnOk result (string_bytes text.new ≡ string_bytes text.old ++ piece.now) }
{
    text.push_str(piece)
}

/// Adds a number to a text, in decimal digits.
///
/// # Errors
///
/// `AllocError` for want of memory.
pub fn push_number(alloc: Global, text: &mut String, number: usize) -> Result<(), AllocError>
    ensures { OnOk result (string_bytes text.new ≡ string_bytes text.old ++ decimal number) }
{
    let digits = number.to_string(alloc)?;
    push(text, digits.as_str())
}

// Whether a byte is one of a control character.
fn is_control(byte: u8) -> bool
    ensures { result ≡ is_control byte }
{
    byte < 32 || byte == 127
}

// Whether a name has a control character.
fn has_control(name: &[u8]) -> bool
    ensures { result ≡ list_any is_control name.now }
{
    name.iter().any(|byte| is_control(*byte))
}

// Whether a byte stands for itself in quotation marks.
fn stands_plain(byte: u8) -> bool
    ensures { result ≡ stands_plain byte }
{
    if byte < 32 {
        return false;
    }
    if byte > 126 {
        return false;
    }
    if byte == b'"' {
        return false;
    }
    if byte == b'\\' {
        return false;
    }
    true
}

// The hexadecimal digit of a number: `a` has the code 97.
fn hex_digit(number: u8) -> char
    requires { number < 16 }
    ensures { result ≡ hex_digit number }
{
    if number < 10 {
        return char::from(b'0' + number);
    }
    char::from(87 + number)
}

// Adds a character.
fn push_char(text: &mut String, letter: char) -> Result<(), AllocError>
    ensures { OnOk result (string_bytes text.new ≡ string_bytes text.old ++ encode_utf8 letter) }
{
    text.push(letter)
}

// Adds a byte by its hexadecimal digits.
fn push_escaped(text: &mut String, byte: u8) -> Result<(), AllocError>
    ensures { OnOk result (string_bytes text.new ≡ string_bytes text.old ++ (codes "\\x" ++ encode_utf8 (hex_digit (byte / 16)) ++ encode_utf8 (hex_digit (byte % 16)))) }
{
    push(text, "\\x")?;
    push_char(text, hex_digit(byte / 16))?;
    push_char(text, hex_digit(byte % 16))
}

// Adds a byte of a name in quotation marks.
fn push_name_byte(text: &mut String, byte: u8) -> Result<(), AllocError>
    ensures { OnOk result (string_bytes text.new ≡ string_bytes text.old ++ name_byte byte) }
{
    if stands_plain(byte) {
        return push_char(text, char::from(byte));
    }
    push_escaped(text, byte)
}

// Adds the bytes of a name in quotation marks.
fn push_name_bytes(text: &mut String, name: &[u8]) -> Result<(), AllocError>
    ensures { OnOk result (string_bytes text.new ≡ string_bytes text.old ++ flat_map name_byte name.now) }
{
    for byte in name {
        push_name_byte(text, *byte)?;
    }
    Ok(())
}

// Adds a name in quotation marks.
fn push_quoted(text: &mut String, name: &[u8]) -> Result<(), AllocError>
    ensures { OnOk result (string_bytes text.new ≡ string_bytes text.old ++ quoted_name name.now) }
{
    push(text, "\"")?;
    push_name_bytes(text, name)?;
    push(text, "\"")
}

// Adds a name: where it has a control character, in quotation marks.
fn push_name(text: &mut String, name: &str) -> Result<(), AllocError>
    ensures { OnOk result (string_bytes text.new ≡ string_bytes text.old ++ told_name name.now) }
{
    if has_control(name.as_bytes()) {
        return push_quoted(text, name.as_bytes());
    }
    push(text, name)
}

/// Adds a line: what is wrong with what lies at a path.
///
/// # Errors
///
/// `AllocError` for want of memory.
pub fn note(notes: &mut String, path: &str, what: &str) -> Result<(), AllocError>
    ensures { OnOk result (string_bytes notes.new ≡ string_bytes notes.old ++ note_line path.now what.now) }
{
    push(notes, "govisd: ")?;
    push_name(notes, path)?;
    push(notes, ": ")?;
    push(notes, what)?;
    push(notes, "\n")
}

/// A name as it is said: two quotation marks stand for that of no bytes.
pub fn name_or_quotes(name: &str) -> &str
    ensures { result.now ≡ name_or_quotes name.now }
{
    if name.is_empty() {
        return "\"\"";
    }
    name
}

/// Whether memory was wanting.
pub fn is_memory(kind: io::ErrorKind) -> bool
    ensures { result ≡ wants_memory kind }
{
    match kind {
        io::ErrorKind::OutOfMemory => true,
        _ => false,
    }
}

/// Why something cannot be read.
///
/// # Errors
///
/// `AllocError` for want of memory, also where that is why.
pub fn why_unread(alloc: Global, error: &io::Error) -> Result<String, AllocError>
    ensures { IfOk result (λ _. wants_memory (error_kind error.now) ≡ false) }
{
    if is_memory(error.kind()) {
        return Err(AllocError);
    }
    let why = error.to_string(alloc)?;
    Ok(why)
}

/// Adds a line: why what lies at a path cannot be read.
///
/// # Errors
///
/// `AllocError` for want of memory, also where that is why: the others would be told of as if nothing lay at this path.
pub fn note_unread(
    alloc: Global,
    notes: &mut String,
    path: &str,
    error: &io::Error,
) -> Result<(), AllocError>
    ensures { OnOk result (SaysUnread path.now (error_kind error.now) (string_bytes notes.old) (string_bytes notes.new)) }
{
    let why = why_unread(alloc, error)?;
    note(notes, path, why.as_str())
}

/// Adds a line: what lies at a path breaks a rule.
///
/// # Errors
///
/// `AllocError` for want of memory.
pub fn note_rule(notes: &mut String, path: &str, rule: Rule) -> Result<(), AllocError>
    ensures { OnOk result (string_bytes notes.new ≡ string_bytes notes.old ++ refusal_line path.now rule) }
{
    push(notes, "govisd: ")?;
    push_name(notes, path)?;
    push(notes, ": ")?;
    push(notes, rule.number())?;
    push(notes, " ")?;
    push(notes, meaning(rule))?;
    push(notes, "\n")
}

// Whether nothing was passed over.
fn is_none_passed(files: usize, folders: usize) -> bool
    ensures { result ≡ none_passed files folders }
{
    files == 0 && folders == 0
}

// Adds a line: how many Go files and folders were passed over.
fn push_passed(
    alloc: Global,
    notes: &mut String,
    files: usize,
    folders: usize,
) -> Result<(), AllocError>
    ensures { OnOk result (string_bytes notes.new ≡ string_bytes notes.old ++ counts_line files folders) }
{
    push(notes, "govisd: passed over by name: Go files ")?;
    push_number(alloc, notes, files)?;
    push(notes, ", folders ")?;
    push_number(alloc, notes, folders)?;
    push(notes, "\n")
}

// Adds a line: how many Go files and folders were passed over by their names, where there are any.
fn note_passed(
    alloc: Global,
    notes: &mut String,
    files: usize,
    folders: usize,
) -> Result<(), AllocError>
    ensures { OnOk result (string_bytes notes.new ≡ string_bytes notes.old ++ passed_line files folders) }
{
    if is_none_passed(files, folders) {
        return Ok(());
    }
    push_passed(alloc, notes, files, folders)
}

/// A line that says how many Go files and folders were passed over by their names, where there are any.
///
/// # Errors
///
/// `AllocError` for want of memory.
pub fn passed_text(alloc: Global, files: usize, folders: usize) -> Result<String, AllocError>
    ensures { IfOk result (λ text. string_bytes text ≡ passed_line files folders) }
{
    let mut text = String::new(alloc);
    note_passed(alloc, &mut text, files, folders)?;
    Ok(text)
}
