//! What is written of rules.
ghost use Rattle.std.specs.Prelude.{◌≡◌, ◌++◌, flat_map, IfOk, OnOk, string_bytes};
ghost use Rattle.std.specs.Prelude.{encode_utf8};
ghost use Rattle.go_explain_core.specs.Telling.{explained_text, hint, json_byte, json_front, json_line, json_list, json_said, json_text, list_line, list_text, listed_text, near_piece, told_text, unknown_text};

use crate::naming::{is_near, rules};
use crate::{explain, meaning};
use go_text_core::Rule;
use std::alloc::{AllocError, Global};

fn push(text: &mut String, piece: &str) -> Result<(), AllocError>
    ensures { OnOk result (string_bytes text.new ≡ string_bytes text.old ++ piece.now) }
{
    text.push_str(piece)
}

fn push_explained(text: &mut String, rule: Rule) -> Result<(), AllocError>
    ensures { OnOk result (string_bytes text.new ≡ string_bytes text.old ++ explained_text rule) }
{
    let said = explain(rule);
    push(text, rule.number())?;
    push(text, ": ")?;
    push(text, said.meaning)?;
    push(text, "\n\nExample:\n\n")?;
    push(text, said.example)?;
    push(text, "\nHow to mend it:\n\n")?;
    push(text, said.mending)
}

// Adds a character.
fn push_char(text: &mut String, letter: char) -> Result<(), AllocError>
    ensures { OnOk result (string_bytes text.new ≡ string_bytes text.old ++ encode_utf8 letter) }
{
    text.push(letter)
}

// Adds a byte of ASCII as it stands in a string of JSON.
fn push_json_byte(text: &mut String, byte: u8) -> Result<(), AllocError>
    ensures { OnOk result (string_bytes text.new ≡ string_bytes text.old ++ json_byte byte) }
{
    if byte == b'"' {
        return push(text, "\\\"");
    }
    if byte == b'\\' {
        return push(text, "\\\\");
    }
    if byte == b'\n' {
        return push(text, "\\n");
    }
    if byte == b'\t' {
        return push(text, "\\t");
    }
    push_char(text, char::from(byte))
}

// Adds the bytes of a string of JSON.
fn push_json(text: &mut String, bytes: &[u8]) -> Result<(), AllocError>
    ensures { OnOk result (string_bytes text.new ≡ string_bytes text.old ++ json_text bytes.now) }
{
    for byte in bytes {
        push_json_byte(text, *byte)?;
    }
    Ok(())
}

// Adds the first two members of the object of a rule.
fn push_front(text: &mut String, rule: Rule) -> Result<(), AllocError>
    ensures { OnOk result (string_bytes text.new ≡ string_bytes text.old ++ json_front rule) }
{
    let said = explain(rule);
    push(text, "{\"example\":\"")?;
    push_json(text, said.example.as_bytes())?;
    push(text, "\",\"meaning\":\"")?;
    push(text, said.meaning)
}

// Adds the members of the object of a rule.
fn push_said(text: &mut String, rule: Rule) -> Result<(), AllocError>
    ensures { OnOk result (string_bytes text.new ≡ string_bytes text.old ++ json_said rule) }
{
    let said = explain(rule);
    push_front(text, rule)?;
    push(text, "\",\"mending\":\"")?;
    push_json(text, said.mending.as_bytes())
}

// Adds what is said of a rule as a JSON object in a line.
fn push_object(text: &mut String, rule: Rule) -> Result<(), AllocError>
    ensures { OnOk result (string_bytes text.new ≡ string_bytes text.old ++ json_line rule) }
{
    push_said(text, rule)?;
    push(text, "\",\"rule\":\"")?;
    push(text, rule.number())?;
    push(text, "\"}\n")
}

// Adds what is said of a rule, as lines or as a JSON object.
fn push_told(text: &mut String, rule: Rule, is_json: bool) -> Result<(), AllocError>
    ensures { OnOk result (string_bytes text.new ≡ string_bytes text.old ++ told_text is_json rule) }
{
    if is_json {
        return push_object(text, rule);
    }
    push_explained(text, rule)
}

/// What a rule means, an example that breaks it, and the example mended, as `govisd explain N1` writes them; or as a JSON object in a line, with the
/// members `example`, `meaning`, `mending` and `rule`.
///
/// # Errors
///
/// `AllocError` for want of memory.
pub fn explained(alloc: Global, rule: Rule, is_json: bool) -> Result<String, AllocError>
    ensures { IfOk result (λ text. string_bytes text ≡ told_text is_json rule) }
{
    let mut text = String::new(alloc);
    push_told(&mut text, rule, is_json)?;
    Ok(text)
}

fn push_line(text: &mut String, rule: Rule) -> Result<(), AllocError>
    ensures { OnOk result (string_bytes text.new ≡ string_bytes text.old ++ list_line rule) }
{
    push(text, rule.number())?;
    push(text, "  ")?;
    push(text, meaning(rule))?;
    push(text, "\n")
}

fn push_lines(text: &mut String, all: &[Rule]) -> Result<(), AllocError>
    ensures { OnOk result (string_bytes text.new ≡ string_bytes text.old ++ flat_map list_line all.now) }
{
    for rule in all {
        push_line(text, *rule)?;
    }
    Ok(())
}

// Adds the objects of rules.
fn push_objects(text: &mut String, all: &[Rule]) -> Result<(), AllocError>
    ensures { OnOk result (string_bytes text.new ≡ string_bytes text.old ++ flat_map json_line all.now) }
{
    for rule in all {
        push_object(text, *rule)?;
    }
    Ok(())
}

// Adds all rules, as lines or as JSON objects.
fn push_listed(text: &mut String, is_json: bool) -> Result<(), AllocError>
    ensures { OnOk result (string_bytes text.new ≡ string_bytes text.old ++ listed_text is_json) }
{
    if is_json {
        return push_objects(text, rules());
    }
    push_lines(text, rules())
}

/// All rules and what they mean, one a line, as `govisd explain` writes them; or each as a JSON object in a line, as [`explained`] has it.
///
/// # Errors
///
/// `AllocError` for want of memory.
pub fn listed(alloc: Global, is_json: bool) -> Result<String, AllocError>
    ensures { IfOk result (λ text. string_bytes text ≡ listed_text is_json) }
{
    let mut text = String::new(alloc);
    push_listed(&mut text, is_json)?;
    Ok(text)
}

fn push_if_near(text: &mut String, word: &str, rule: Rule) -> Result<(), AllocError>
    ensures { OnOk result (string_bytes text.new ≡ string_bytes text.old ++ near_piece word.now rule) }
{
    if is_near(rule, word) {
        push(text, " ")?;
        push(text, rule.number())?;
    }
    Ok(())
}

fn push_near(text: &mut String, word: &str, all: &[Rule]) -> Result<(), AllocError>
    ensures { OnOk result (string_bytes text.new ≡ string_bytes text.old ++ flat_map (near_piece word.now) all.now) }
{
    for rule in all {
        push_if_near(text, word, *rule)?;
    }
    Ok(())
}

fn push_hint(text: &mut String, near: &str) -> Result<(), AllocError>
    ensures { OnOk result (string_bytes text.new ≡ string_bytes text.old ++ hint near.now) }
{
    if near.is_empty() {
        return Ok(());
    }
    push(text, ". Near it:")?;
    push(text, near)
}

/// That no rule has a name, and which rules are near it, as `govisd explain` refuses it.
///
/// # Errors
///
/// `AllocError` for want of memory.
pub fn unknown(alloc: Global, word: &str) -> Result<String, AllocError>
    ensures { IfOk result (λ text. string_bytes text ≡ unknown_text word.now) }
{
    let mut near = String::new(alloc);
    push_near(&mut near, word, rules())?;
    let mut text = String::new(alloc);
    push(&mut text, "govisd: there is no rule ")?;
    push(&mut text, word)?;
    push_hint(&mut text, near.as_str())?;
    push(&mut text, "\ngovisd: govisd explain lists all rules\n")?;
    Ok(text)
}
