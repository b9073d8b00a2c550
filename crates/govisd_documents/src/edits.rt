//! Texts that come from the editor and from the folder.
ghost use Rattle.std.specs.Prelude.{IfOk};
ghost use Rattle.std.specs.List.Sorted.{IsStrictlySortedBy};
ghost use Rattle.std.specs.Map.{keys_of};
ghost use Rattle.std.specs.String.{string_cmp};

use crate::disk::Disk;
use crate::documents::{Compiled, Document, Hidden, compile_text, edited_part};
use crate::opening::reopen;
use crate::paths::is_source;
use crate::session::{FileName, Session, files_in};
use go_folder_core::below;
use go_graph_core::{SourceFile, Workspace};
use go_lsp_core::edits::{Change, apply_changes};
use go_path_core::ImportPath;
use go_recovery_core::standin::Interval;
use govisd_protocol::{list_at, range_in, text_at};
use serde_json::Value;
use std::alloc::{AllocError, Global};
use std::collections::BTreeMap;

// Adds a text by its name.
fn add_text(
    alloc: Global,
    texts: &mut BTreeMap<String, String>,
    name: &str,
    text: String,
) -> Result<(), AllocError> {
    let own = String::from_str(alloc, name)?;
    match texts.insert(own, text) {
        Ok(_) => Ok(()),
        Err(_) => Err(AllocError),
    }
}

// Adds the names and the texts of files but for that of a name.
fn add_others(
    alloc: Global,
    texts: &mut BTreeMap<String, String>,
    files: &[SourceFile],
    name: &str,
) -> Result<(), AllocError> {
    for file in files {
        if file.name() != name {
            let text = String::from_str(alloc, file.text())?;
            add_text(alloc, texts, file.name(), text)?;
        }
    }
    Ok(())
}

// The texts of a package by their names, with one set to a text, or without it.
fn texts_with(
    alloc: Global,
    files: &[SourceFile],
    name: &str,
    text: Option<String>,
) -> Result<BTreeMap<String, String>, AllocError> {
    let mut texts = BTreeMap::new(alloc);
    add_others(alloc, &mut texts, files, name)?;
    if let Some(text) = text {
        add_text(alloc, &mut texts, name, text)?;
    }
    Ok(texts)
}

// Files with their names, in order of name.
fn named_files(
    alloc: Global,
    files: BTreeMap<String, String>,
) -> Result<Vec<(String, String)>, AllocError>
    ensures { IfOk result (λ v. IsStrictlySortedBy string_cmp (keys_of v.items)) }
{
    files.into_iter().collect(alloc)
}

/// Sets the files of the package of a path.
///
/// # Errors
///
/// `AllocError` where memory is wanting.
pub fn put_texts(
    alloc: Global,
    workspace: &mut Workspace,
    path: &ImportPath,
    texts: BTreeMap<String, String>,
) -> Result<(), AllocError> {
    let named = named_files(alloc, texts)?;
    match workspace.put(alloc, path, named) {
        Ok(()) => Ok(()),
        Err(_) => Err(AllocError),
    }
}

/// Sets the files of the package of a path to copies of files.
///
/// # Errors
///
/// `AllocError` where memory is wanting.
pub(crate) fn put_files(
    alloc: Global,
    workspace: &mut Workspace,
    path: &ImportPath,
    files: &[SourceFile],
) -> Result<(), AllocError> {
    let texts = texts_with(alloc, files, "", None)?;
    put_texts(alloc, workspace, path, texts)
}

/// The packages of a session with a file set to a text.
///
/// # Errors
///
/// `AllocError` where memory is wanting.
pub fn with_file(
    session: &Session,
    file: &FileName,
    text: String,
) -> Result<Workspace, AllocError> {
    let alloc = session.alloc;
    let files = files_in(session.workspace.packages(), &file.package);
    let texts = texts_with(alloc, files, file.name.as_str(), Some(text))?;
    let mut edited = session.workspace.copy(alloc)?;
    put_texts(alloc, &mut edited, &file.package, texts)?;
    Ok(edited)
}

// Sets a file of the workspace to a text, or takes it away.
fn put_file(
    session: &mut Session,
    file: &FileName,
    text: Option<String>,
) -> Result<(), AllocError> {
    let alloc = session.alloc;
    let files = files_in(session.workspace.packages(), &file.package);
    let texts = texts_with(alloc, files, file.name.as_str(), text)?;
    put_texts(alloc, &mut session.workspace, &file.package, texts)?;
    session.is_stale = true;
    Ok(())
}

// Sets the file at a path below the folder of the workspace to a text, or takes it away, where it is a source file of a package.
fn put_path(session: &mut Session, path: &str, text: Option<String>) -> Result<(), AllocError> {
    if !is_source(path) {
        return Ok(());
    }
    match session.name_of(path)? {
        Some(file) => put_file(session, &file, text),
        None => Ok(()),
    }
}

// Shows a text of an open file: it, or what stands in for it, is compiled from now on.
fn show(
    session: &mut Session,
    path: String,
    uri: String,
    version: i64,
    text: String,
    edited: Option<Interval>,
) -> Result<(), AllocError> {
    let Compiled { text: put, hidden } = compile_text(session.alloc, text.as_str(), edited)?;
    put_path(session, path.as_str(), Some(put))?;
    keep(session, path, uri, version, text, hidden)
}

// Keeps an open file.
fn keep(
    session: &mut Session,
    path: String,
    uri: String,
    version: i64,
    text: String,
    hidden: Option<Hidden>,
) -> Result<(), AllocError> {
    let document = Document {
        uri,
        version,
        text,
        hidden,
    };
    match session.documents.insert(path, document) {
        Ok(_) => Ok(()),
        Err(_) => Err(AllocError),
    }
}

// The version that stands in a notification.
fn version_in(params: &Value) -> i64 {
    match params.pointer("/textDocument/version") {
        Some(version) => version.as_i64().unwrap_or(0),
        None => 0,
    }
}

/// The editor opened a file. What does not fit is passed over.
///
/// # Errors
///
/// `AllocError` where memory is wanting.
pub fn opened(session: &mut Session, params: &Value) -> Result<(), AllocError> {
    let alloc = session.alloc;
    let Some(uri) = text_at(params, "/textDocument/uri") else {
        return Ok(());
    };
    let Some(text) = text_at(params, "/textDocument/text") else {
        return Ok(());
    };
    let Some(path) = session.path_of(uri)? else {
        return Ok(());
    };
    let own = String::from_str(alloc, uri)?;
    let text = String::from_str(alloc, text)?;
    session.forget_told();
    show(session, path, own, version_in(params), text, None)
}

// The change that a value is, of a part of a text or of the whole; none where the value is no change.
fn change_in(value: &Value) -> Option<Change<'_>> {
    let new = text_at(value, "/text")?;
    let Some(range) = value.get("range") else {
        return Some(Change { range: None, new });
    };
    if range.is_null() {
        return Some(Change { range: None, new });
    }
    let range = range_in(range)?;
    Some(Change {
        range: Some(range),
        new,
    })
}

// The changes that values are. A value that is none is passed over.
fn changes_in(alloc: Global, values: &[Value]) -> Result<Vec<Change<'_>>, AllocError> {
    let mut changes = Vec::new(alloc);
    for value in values {
        if let Some(change) = change_in(value) {
            changes.push(change)?;
        }
    }
    Ok(changes)
}

/// The editor changed a file that it has open. What does not fit is passed over.
///
/// # Errors
///
/// `AllocError` where memory is wanting.
pub fn changed(session: &mut Session, params: &Value) -> Result<(), AllocError> {
    let Some(uri) = text_at(params, "/textDocument/uri") else {
        return Ok(());
    };
    let Some(changes) = list_at(params, "/contentChanges") else {
        return Ok(());
    };
    let Some(path) = session.path_of(uri)? else {
        return Ok(());
    };
    let Some(document) = session.documents.get(path.as_str()) else {
        return Ok(());
    };
    let changes = changes_in(session.alloc, changes.as_slice())?;
    let old = document.text.as_str();
    let text = apply_changes(session.alloc, old, session.encoding, &changes)?;
    let edited = edited_part(document.text.as_str(), text.as_str());
    let own = String::from_str(session.alloc, uri)?;
    show(session, path, own, version_in(params), text, edited)
}

// Takes the text of a file that is not open from the folder.
fn take_from_disk<D: Disk>(disk: &D, session: &mut Session, path: &str) -> Result<(), AllocError> {
    if !is_source(path) {
        return Ok(());
    }
    let whole = below(session.alloc, session.root.as_str(), path)?;
    let text = disk.text(whole.as_str());
    put_path(session, path, text)
}

/// The editor closed a file: what stands in the folder counts from now on.
///
/// # Errors
///
/// `AllocError` where memory is wanting.
pub fn closed<D: Disk>(disk: &D, session: &mut Session, params: &Value) -> Result<(), AllocError> {
    let Some(uri) = text_at(params, "/textDocument/uri") else {
        return Ok(());
    };
    let Some(path) = session.path_of(uri)? else {
        return Ok(());
    };
    let _closed = session.documents.remove(path.as_str());
    session.forget_told();
    take_from_disk(disk, session, path.as_str())
}

// Shows the text of an open file anew.
fn show_again(session: &mut Session, path: String) -> Result<(), AllocError> {
    let Some(document) = session.documents.remove(path.as_str()) else {
        return Ok(());
    };
    let Document {
        uri,
        version,
        text,
        hidden: _,
    } = document;
    show(session, path, uri, version, text, None)
}

// The paths of the open files.
fn open_paths(session: &Session) -> Result<Vec<String>, AllocError> {
    let mut paths = Vec::new(session.alloc);
    for path in session.documents.keys() {
        paths.push(String::from_str(session.alloc, path.as_str())?)?;
    }
    Ok(paths)
}

/// Shows the texts of all open files anew, over what was read of the folder.
///
/// # Errors
///
/// `AllocError` where memory is wanting.
pub(crate) fn show_all(session: &mut Session) -> Result<(), AllocError> {
    for path in open_paths(session)? {
        show_again(session, path)?;
    }
    Ok(())
}

// A file of the folder was made, changed or taken away.
fn watched<D: Disk>(disk: &D, session: &mut Session, uri: &str) -> Result<(), AllocError> {
    let Some(path) = session.path_of(uri)? else {
        return Ok(());
    };
    if session.documents.contains_key(path.as_str()) {
        return Ok(());
    }
    take_from_disk(disk, session, path.as_str())
}

// Whether a file names modules.
fn names_modules(uri: &str) -> bool {
    uri.ends_with("/go.mod") || uri.ends_with("/go.work")
}

// Whether one of these changes is of a file that names modules.
fn change_modules(changes: &[Value]) -> bool {
    for change in changes {
        if let Some(uri) = text_at(change, "/uri") {
            if names_modules(uri) {
                return true;
            }
        }
    }
    false
}

/// Files of the folder were made, changed or taken away. Those that are open stay as the editor shows them; where one names modules, the folder is read anew.
///
/// # Errors
///
/// `AllocError` where memory is wanting.
pub fn watched_all<D: Disk>(
    disk: &D,
    session: &mut Session,
    params: &Value,
) -> Result<(), AllocError> {
    let Some(changes) = list_at(params, "/changes") else {
        return Ok(());
    };
    if change_modules(changes.as_slice()) {
        return reopen(disk, session);
    }
    for change in changes {
        if let Some(uri) = text_at(change, "/uri") {
            watched(disk, session, uri)?;
        }
    }
    Ok(())
}
