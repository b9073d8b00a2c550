//! Places of files, as an editor names them.

use crate::session::{FileName, Session};
use crate::targets::FilePlace;
use crate::words::{name_end, name_start, token_end};
use go_graph_core::SourceFile;
use go_lsp_core::positions::{Lines, Position, Range, offset_of};
use go_path_core::ImportPath;
use govisd_protocol::{position_at, range_value, text_at};
use serde_json::{Value, json};
use std::alloc::{AllocError, Global};

/// A place of a file of the module, as a request names it.
#[derive(Drop)]
pub struct AskedPlace {
    /// The path of the file below the folder of the workspace.
    pub path: String,
    /// The file, as queries name it.
    pub file: FileName,
    /// The position.
    pub position: Position,
    /// The offset in bytes.
    pub offset: usize,
    /// The offset of a byte of the name that the place lies in or at the end of; else the same.
    pub on: usize,
}

// The offset of a byte of the name that an offset lies in or at the end of; else the offset itself.
fn on_name(bytes: &[u8], offset: usize) -> usize {
    if name_end(bytes, offset) > offset {
        return offset;
    }
    if name_start(bytes, offset) < offset {
        return offset.saturating_sub(1);
    }
    offset
}

// The text of a file as the editor shows it: of an open file, or else the one that is compiled.
fn text_of<'s>(session: &'s Session, path: &str, file: &FileName) -> Option<&'s str> {
    if let Some(document) = session.documents.get(path) {
        return Some(document.text.as_str());
    }
    match session.snapshot.file(&file.package, file.name.as_str()) {
        Some(found) => Some(found.source.text()),
        None => None,
    }
}

// The file at a path, with the offset of the position that the parameters name.
fn place_in(
    session: &Session,
    params: &Value,
    path: String,
) -> Result<Option<AskedPlace>, AllocError> {
    let Some(position) = position_at(params, "/position") else {
        return Ok(None);
    };
    let Some(file) = session.name_of(path.as_str())? else {
        return Ok(None);
    };
    let Some(text) = text_of(session, path.as_str(), &file) else {
        return Ok(None);
    };
    let offset = offset_of(text, session.encoding, position);
    let on = on_name(text.as_bytes(), offset);
    Ok(Some(AskedPlace {
        path,
        file,
        position,
        offset,
        on,
    }))
}

/// The file that the parameters of a request name, as queries name it; none where it lies in no package.
///
/// # Errors
///
/// `AllocError` where memory is wanting.
pub fn asked_file(session: &Session, params: &Value) -> Result<Option<FileName>, AllocError> {
    let Some(uri) = text_at(params, "/textDocument/uri") else {
        return Ok(None);
    };
    match session.path_of(uri)? {
        Some(path) => session.name_of(path.as_str()),
        None => Ok(None),
    }
}

/// The file and the offset that the parameters of a request name; none where the module has no such file.
///
/// # Errors
///
/// `AllocError` where memory is wanting.
pub fn asked_place(session: &Session, params: &Value) -> Result<Option<AskedPlace>, AllocError> {
    let Some(uri) = text_at(params, "/textDocument/uri") else {
        return Ok(None);
    };
    match session.path_of(uri)? {
        Some(path) => place_in(session, params, path),
        None => Ok(None),
    }
}

/// A range of a file as a location.
///
/// # Errors
///
/// `AllocError` where memory is wanting.
pub fn location_value(alloc: Global, uri: &str, range: Value) -> Result<Value, AllocError> {
    json!(in alloc; {"uri": uri, "range": range})
}

/// The start of a file of a package, as a location.
///
/// # Errors
///
/// `AllocError` where memory is wanting.
pub fn file_start(
    session: &Session,
    package: &ImportPath,
    source: &SourceFile,
) -> Result<Value, AllocError> {
    let path = session.file_path(package.as_str(), source.name())?;
    let uri = session.uri_of(path.as_str())?;
    let start = Position {
        line: 0,
        character: 0,
    };
    let range = range_value(session.alloc, Range { start, end: start })?;
    location_value(session.alloc, uri.as_str(), range)
}

/// A file whose places are told: its name for the editor, and its lines.
pub struct ToldFile<'s> {
    pub uri: String,
    /// Whether the editor has it open.
    pub is_open: bool,
    pub lines: Lines<'s>,
}

impl Drop for ToldFile<'_> {
    fn drop(self) {
        let ToldFile {
            uri: _,
            is_open: _,
            lines: _,
        } = self;
    }
}

impl<'s> ToldFile<'s> {
    /// The text of the file as the editor shows it.
    pub fn text(&self) -> &'s str {
        self.lines.text()
    }
}

/// A file of a package, to tell places of it.
///
/// # Errors
///
/// `AllocError` where memory is wanting.
pub fn told_file<'s>(
    session: &'s Session,
    package: &ImportPath,
    source: &'s SourceFile,
) -> Result<ToldFile<'s>, AllocError> {
    let path = session.file_path(package.as_str(), source.name())?;
    let text = session.shown_text(path.as_str(), source.text());
    Ok(ToldFile {
        uri: session.uri_of(path.as_str())?,
        is_open: session.documents.contains_key(path.as_str()),
        lines: Lines::new(session.alloc, text)?,
    })
}

/// The range between two offsets of a file.
///
/// # Errors
///
/// `AllocError` where memory is wanting.
pub fn told_range(
    alloc: Global,
    session: &Session,
    file: &ToldFile<'_>,
    start: usize,
    end: usize,
) -> Result<Value, AllocError> {
    range_value(alloc, file.lines.range_of(session.encoding, start, end))
}

/// The token that begins at an offset of a file, as a location.
///
/// # Errors
///
/// `AllocError` where memory is wanting.
pub fn token_location(
    session: &Session,
    file: &ToldFile<'_>,
    offset: usize,
) -> Result<Value, AllocError> {
    let end = token_end(file.text().as_bytes(), offset);
    let range = told_range(session.alloc, session, file, offset, end)?;
    location_value(session.alloc, file.uri.as_str(), range)
}

/// The token that begins at a place, as a location.
///
/// # Errors
///
/// `AllocError` where memory is wanting.
pub fn location<'s>(session: &'s Session, at: FilePlace<'s>) -> Result<Value, AllocError> {
    let file = told_file(session, at.package, at.source)?;
    token_location(session, &file, at.offset)
}
