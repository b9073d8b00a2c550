//! Imports that are added.

use crate::session::{FileName, Session};
use go_lsp_core::positions::{Range, position_of};
use go_tree_nodes::{File, ImportSpecs};
use govisd_protocol::range_value;
use serde_json::{Value, json};
use std::alloc::{AllocError, Global};

/// A text that is put in at an offset.
#[derive(Drop)]
pub struct Insertion {
    pub offset: usize,
    pub text: String,
}

// Whether nothing but blanks stands from an offset up to the end of its line.
fn ends_line(bytes: &[u8], offset: usize) -> bool {
    for at in offset..bytes.len() {
        if bytes[at] == b'\n' {
            return true;
        }
        if !bytes[at].is_ascii_whitespace() {
            return false;
        }
    }
    true
}

// An import that is added after a parenthesis of imports: on a line of its own.
fn in_group(alloc: Global, text: &str, offset: usize, path: &str) -> Result<Insertion, AllocError> {
    let end = if ends_line(text.as_bytes(), offset) {
        ""
    } else {
        "\n"
    };
    Ok(Insertion {
        offset,
        text: format!(in alloc; "\n\t\"{path}\"{end}")?,
    })
}

// An import that is added to a file with a text: to the imports in parentheses, before the one that is there, or after the package clause.
fn inserted(alloc: Global, tree: &File, text: &str, path: &str) -> Result<Insertion, AllocError> {
    let Some(import) = tree.imports.first() else {
        return Ok(Insertion {
            offset: tree.name.span.end as usize,
            text: format!(in alloc; "\n\nimport \"{path}\"")?,
        });
    };
    match &import.specs {
        ImportSpecs::Group(open, _, _) => in_group(alloc, text, open.end as usize, path),
        ImportSpecs::One(_) => Ok(Insertion {
            offset: import.keyword.start as usize,
            text: format!(in alloc; "import \"{path}\"\n")?,
        }),
    }
}

/// The import of a path that is added to a file; none where the file is none of an assembled package.
///
/// # Errors
///
/// `AllocError` where memory is wanting.
pub fn import_of(
    session: &Session,
    at: &FileName,
    path: &str,
) -> Result<Option<Insertion>, AllocError> {
    match session.snapshot.file(&at.package, at.name.as_str()) {
        Some(file) => Ok(Some(inserted(session.alloc, file.tree, file.source.text(), path)?)),
        None => Ok(None),
    }
}

/// The edit that adds an import to a file with a text, as a list.
///
/// # Errors
///
/// `AllocError` where memory is wanting.
pub fn import_edit(
    session: &Session,
    at: &FileName,
    text: &str,
    path: &str,
) -> Result<Value, AllocError> {
    let alloc = session.alloc;
    let Some(insertion) = import_of(session, at, path)? else {
        return Ok(Value::Array(Vec::new(alloc)));
    };
    let place = position_of(text, session.encoding, insertion.offset);
    let range = range_value(
        alloc,
        Range {
            start: place,
            end: place,
        },
    )?;
    let line = insertion.text.as_str();
    json!(in alloc; [{"range": range, "newText": line}])
}
