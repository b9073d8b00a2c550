//! Signatures of what is called.

use crate::forms::{Form, NAME, Within, formed, half_name, outside, step};
use crate::hovering::head_of;
use go_path_core::text_core::Rule;
use go_reference_core::query_core::define;
use go_snap_core::Snapshot;
use govisd_documents::{AskedPlace, Session, name_start, shown_text, text_between, tried};
use serde_json::{Value, json};
use std::alloc::{AllocError, Global};

/// A call that is open at a place.
#[derive(Clone, Copy)]
struct OpenCall {
    /// The offset of its parenthesis.
    paren: usize,
    /// How many commas stand behind it.
    commas: usize,
}

// Takes account of a byte of code: a bracket opens or closes, or a comma stands in it.
fn note(calls: &mut Vec<OpenCall>, at: usize, byte: u8) -> Result<(), AllocError> {
    match byte {
        b'(' | b'{' | b'[' => calls.push(OpenCall {
            paren: at,
            commas: 0,
        })?,
        b')' | b'}' | b']' => {
            let _closed = calls.pop();
        }
        b',' => {
            if let Some(last) = calls.pop() {
                calls.push(OpenCall {
                    paren: last.paren,
                    commas: last.commas.saturating_add(1),
                })?;
            }
        }
        _ => {}
    }
    Ok(())
}

// Whether the byte at an offset is a parenthesis that opens.
fn has_parenthesis(bytes: &[u8], at: usize) -> bool {
    match bytes.get(at) {
        Some(byte) => *byte == b'(',
        None => false,
    }
}

// The innermost bracket that is open behind some bytes, where it is a parenthesis.
fn open_call(alloc: Global, bytes: &[u8]) -> Result<Option<OpenCall>, AllocError> {
    let mut calls = Vec::new(alloc);
    let mut within = Within::Code;
    for (at, byte) in bytes.iter().enumerate() {
        if within.is_code() {
            note(&mut calls, at, *byte)?;
        }
        within = step(within, *byte);
    }
    match calls.pop() {
        Some(last) if has_parenthesis(bytes, last.paren) => Ok(Some(last)),
        _ => Ok(None),
    }
}

// The head of what is called before an offset of a file of a snapshot.
fn called(
    session: &Session,
    snapshot: &Snapshot,
    at: &AskedPlace,
    paren: usize,
) -> Result<Option<String>, AllocError> {
    let Some(end) = paren.checked_sub(1) else {
        return Ok(None);
    };
    match define(
        session.alloc,
        snapshot,
        &at.file.package,
        at.file.name.as_str(),
        end,
    ) {
        Ok(site) => Ok(Some(head_of(session, snapshot, site.decl().site())?)),
        Err(Rule::M0) => Err(AllocError),
        Err(_) => Ok(None),
    }
}

// The head of what is called at a place whose parenthesis stands at an offset.
fn head_at(
    session: &Session,
    at: &AskedPlace,
    text: &str,
    paren: usize,
) -> Result<Option<String>, AllocError> {
    let bytes = text.as_bytes();
    if name_start(bytes, paren) == paren {
        return Ok(None);
    }
    let half = outside(half_name(text, at.offset));
    match formed(session.alloc, text, half, NAME, Form::Value)? {
        Some(text) => {
            let snapshot = tried(session, &at.file, text)?;
            called(session, &snapshot, at, paren)
        }
        None => Ok(None),
    }
}

// Whether a byte opens a bracket.
fn is_opening(byte: u8) -> bool {
    matches!(byte, b'(' | b'[' | b'{')
}

// Whether a byte closes a bracket.
fn is_closing(byte: u8) -> bool {
    matches!(byte, b')' | b']' | b'}')
}

// What stands before the bracket that closes around the front of a text.
fn inside(text: &str) -> &str {
    let mut depth: usize = 0;
    for (at, byte) in text.as_bytes().iter().enumerate() {
        if is_closing(*byte) && depth == 0 {
            return text_between(text, 0, at);
        }
        if is_opening(*byte) {
            depth = depth.saturating_add(1);
        } else if is_closing(*byte) {
            depth = depth.saturating_sub(1);
        }
    }
    text
}

// The parameters in the head of a function: what stands in the parentheses behind its name.
fn parameters_in(head: &str) -> &str {
    let behind = match head.strip_prefix("func (") {
        Some(receiver) => match receiver.split_once(')') {
            Some((_, rest)) => rest,
            None => receiver,
        },
        None => head,
    };
    match behind.split_once('(') {
        Some((_, rest)) => inside(rest),
        None => "",
    }
}

// Adds a parameter of a signature.
fn add_parameter(alloc: Global, all: &mut Vec<Value>, text: &str) -> Result<(), AllocError> {
    let label = text.trim_ascii();
    if !label.is_empty() {
        all.push(json!(in alloc; {"label": label})?)?;
    }
    Ok(())
}

// The parameters of a list, which commas part that stand in no bracket.
fn parameter_values(alloc: Global, list: &str) -> Result<Vec<Value>, AllocError> {
    let mut all = Vec::new(alloc);
    let mut depth: usize = 0;
    let mut start = 0;
    for (at, byte) in list.as_bytes().iter().enumerate() {
        if is_opening(*byte) {
            depth = depth.saturating_add(1);
        } else if is_closing(*byte) {
            depth = depth.saturating_sub(1);
        } else if *byte == b',' && depth == 0 {
            add_parameter(alloc, &mut all, text_between(list, start, at))?;
            start = at.saturating_add(1);
        }
    }
    add_parameter(alloc, &mut all, text_between(list, start, list.len()))?;
    Ok(all)
}

// The signature of a head as a value.
fn signature_value(alloc: Global, head: &str) -> Result<Value, AllocError> {
    let parameters = Value::Array(parameter_values(alloc, parameters_in(head))?);
    json!(in alloc; {"parameters": parameters, "label": head})
}

// The signature of a head, with the number of the argument that is written.
fn signature(alloc: Global, head: &str, argument: usize) -> Result<Value, AllocError> {
    let value = signature_value(alloc, head)?;
    json!(in alloc; {"signatures": [value], "activeSignature": 0u8, "activeParameter": argument})
}

// The bytes of a text before an offset.
fn before(text: &str, offset: usize) -> &[u8] {
    let bytes = text.as_bytes();
    let (front, _) = bytes.split_at(offset.min(bytes.len()));
    front
}

/// The head of what is called at a place of an open file, and which argument stands there. Null where no call is open.
///
/// # Errors
///
/// `AllocError` where memory is wanting.
pub fn signature_help(session: &Session, at: &AskedPlace) -> Result<Value, AllocError> {
    let alloc = session.alloc;
    let Some(text) = shown_text(session, at) else {
        return Ok(Value::Null);
    };
    let Some(call) = open_call(alloc, before(text, at.offset))? else {
        return Ok(Value::Null);
    };
    match head_at(session, at, text, call.paren)? {
        Some(head) => signature(alloc, head.as_str(), call.commas),
        None => Ok(Value::Null),
    }
}
