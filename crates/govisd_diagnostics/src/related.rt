//! Places beside a fault, as messages name them.

use go_diagnostic_core::snap_core::FileIn;
use go_folder_core::package_path;
use go_lsp_core::positions::{Encoding, Position};
use govisd_documents::{Session, path_of, token_location, told_file};
use serde_json::{Value, json};
use std::alloc::{AllocError, Global};

/// A place as it is named: the path of a file below the folder of a module, a line and a column, both from 1, the column in bytes.
#[derive(Clone, Copy)]
struct NamedPlace<'t> {
    path: &'t str,
    line: usize,
    column: usize,
}

// The place that a text names, as `lib/lib.go:7:9`.
fn named_place(text: &str) -> Option<NamedPlace<'_>> {
    let (front, column) = text.rsplit_once(':')?;
    let (path, line) = front.rsplit_once(':')?;
    let line = line.parse::<usize>().ok()?;
    let column = column.parse::<usize>().ok()?;
    Some(NamedPlace { path, line, column })
}

// The file of a package by the path of the package.
fn file_in<'s>(
    session: &'s Session,
    package: &str,
    name: &str,
) -> Result<Option<FileIn<'s>>, AllocError> {
    match path_of(session.alloc, package)? {
        Some(path) => Ok(session.snapshot.file(&path, name)),
        None => Ok(None),
    }
}

// The file of a place: below the folder of a module, or else by the whole path of its package.
fn file_of<'s>(
    session: &'s Session,
    module: &str,
    path: &str,
) -> Result<Option<FileIn<'s>>, AllocError> {
    let (folder, name) = match path.rsplit_once('/') {
        Some((folder, name)) => (folder, name),
        None => ("", path),
    };
    let own = package_path(session.alloc, module, folder)?;
    match file_in(session, own.as_str(), name)? {
        Some(file) => Ok(Some(file)),
        None => file_in(session, folder, name),
    }
}

// The token at a place of a file, as a location.
fn location_in<'s>(
    session: &'s Session,
    file: FileIn<'s>,
    place: NamedPlace<'_>,
) -> Result<Value, AllocError> {
    let told = told_file(session, file.part.path(), file.source)?;
    let position = Position {
        line: place.line.saturating_sub(1),
        character: place.column.saturating_sub(1),
    };
    let start = told.lines.offset_of(Encoding::Utf8, position);
    token_location(session, &told, start)
}

// A location as related information.
fn related_value(alloc: Global, location: Value, word: &str) -> Result<Value, AllocError> {
    json!(in alloc; {"location": location, "message": word})
}

/// The place that a text as `lib/lib.go:7:9` names below the folder of a module, as related information with a word: a line and a column, both from 1, the column in
/// bytes. None where the text names no file of an assembled package.
///
/// # Errors
///
/// `AllocError` where memory is wanting.
pub(crate) fn related_place(
    session: &Session,
    module: &str,
    text: &str,
    word: &str,
) -> Result<Option<Value>, AllocError> {
    let Some(place) = named_place(text) else {
        return Ok(None);
    };
    let Some(file) = file_of(session, module, place.path)? else {
        return Ok(None);
    };
    let location = location_in(session, file, place)?;
    Ok(Some(related_value(session.alloc, location, word)?))
}
