//! What is told of open files beside their faults.

use crate::publishing::hidden_in;
use go_explain_core::meaning;
use go_graph_core::SourceFile;
use go_lsp_core::positions::{Position, Range};
use go_path_core::ImportPath;
use go_path_core::text_core::Rule;
use govisd_documents::{
    Session, ToldFile, Unread, token_at, told_range, unused_variables, why_unread,
};
use govisd_protocol::range_value;
use serde_json::{Value, json};
use std::alloc::{AllocError, Global};

/// The severities of the protocol.
const WARNING: u8 = 2;

const INFORMATION: u8 = 3;

/// The tag of the protocol for what is of no use.
const UNNECESSARY: u8 = 1;

/// The offsets of the variables of an open file's functions that nothing uses. None of a file that is not open, or whose text does not parse.
///
/// # Errors
///
/// `AllocError` where memory is wanting.
pub(crate) fn unused_in(
    session: &Session,
    package: &ImportPath,
    source: &SourceFile,
    path: &str,
) -> Result<Vec<usize>, AllocError> {
    if !session.documents.contains_key(path) || hidden_in(session, path).is_some() {
        return Ok(Vec::new(session.alloc));
    }
    match session.snapshot.file(package, source.name()) {
        Some(file) => unused_variables(session.alloc, file),
        None => Ok(Vec::new(session.alloc)),
    }
}

// What is told of a variable that nothing uses.
fn unused_value(
    session: &Session,
    file: &ToldFile<'_>,
    offset: usize,
) -> Result<Value, AllocError> {
    let alloc = session.alloc;
    let name = token_at(file.text(), offset);
    let text = format!(in alloc; "{name} is declared and not used, which go build refuses")?;
    let range = told_range(
        alloc,
        session,
        file,
        offset,
        offset.saturating_add(name.len()),
    )?;
    json!(in alloc; {"range": range, "message": text, "severity": WARNING, "tags": [UNNECESSARY], "source": "govisd"})
}

/// Adds what is told of variables that nothing uses, by their offsets.
///
/// # Errors
///
/// `AllocError` where memory is wanting.
pub(crate) fn add_unused(
    session: &Session,
    all: &mut Vec<Value>,
    file: &ToldFile<'_>,
    unused: &[usize],
) -> Result<(), AllocError> {
    for offset in unused {
        all.push(unused_value(session, file, *offset)?)?;
    }
    Ok(())
}

// Why nothing is checked in a file.
fn unread_text(why: Unread) -> &'static str {
    match why {
        Unread::Test => "tests are not read yet",
        Unread::PassedOver => {
            "names that begin with . or _, and folders named testdata or vendor, are passed over"
        }
        Unread::BadName => meaning(Rule::E2),
        Unread::BadFolder => "the path of its folder is not an import path",
    }
}

// That nothing is checked in a file, and why, at its start.
fn unread_remark(alloc: Global, why: Unread) -> Result<Value, AllocError> {
    let said = unread_text(why);
    let text = format!(in alloc; "nothing is checked in this file: {said}")?;
    let start = Position {
        line: 0,
        character: 0,
    };
    let range = range_value(alloc, Range { start, end: start })?;
    json!(in alloc; {"range": range, "message": text, "severity": INFORMATION, "source": "govisd"})
}

/// What is told of an open file that is not among those of the workspace: why it is not read, where it is a Go file.
///
/// # Errors
///
/// `AllocError` where memory is wanting.
pub(crate) fn unread_value(alloc: Global, path: &str) -> Result<Value, AllocError> {
    let mut all = Vec::new(alloc);
    if let Some(why) = why_unread(path) {
        all.push(unread_remark(alloc, why)?)?;
    }
    Ok(Value::Array(all))
}
