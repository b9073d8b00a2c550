//! From the names by which an editor names files to paths below the folder of the workspace, and back.

use go_folder_core::{FileKind, file_kind, is_passed_over};
use percent_encoding::{AsciiSet, NON_ALPHANUMERIC, percent_decode, percent_encode};
use std::alloc::{AllocError, Global};

// The bytes that are escaped in the name of a file.
fn escaped() -> AsciiSet {
    NON_ALPHANUMERIC
        .remove(b'/')
        .remove(b'-')
        .remove(b'_')
        .remove(b'.')
        .remove(b'~')
}

/// The path of the file that a `file:` name names; none where it names none on this machine.
///
/// # Errors
///
/// `AllocError` where memory is wanting.
pub(crate) fn path_of_uri(alloc: Global, uri: &str) -> Result<Option<String>, AllocError> {
    let Some(rest) = uri.strip_prefix("file://") else {
        return Ok(None);
    };
    let path = rest.strip_prefix("localhost").unwrap_or(rest);
    if !path.starts_with('/') {
        return Ok(None);
    }
    let mut bytes = Vec::new(alloc);
    percent_decode(path.as_bytes()).append_to(&mut bytes)?;
    Ok(String::from_utf8(bytes).ok())
}

/// The `file:` name of the file at a path.
///
/// # Errors
///
/// `AllocError` where memory is wanting.
pub(crate) fn uri_of_path(alloc: Global, path: &str) -> Result<String, AllocError> {
    let mut uri = String::from_str(alloc, "file://")?;
    percent_encode(path.as_bytes(), escaped()).append_to(&mut uri)?;
    Ok(uri)
}

/// A path without the slashes at its end.
pub(crate) fn trimmed(path: &str) -> &str {
    path.strip_suffix('/').unwrap_or(path)
}

/// What a path is below a folder, as `sub/a.go`; none where it is not below it.
pub(crate) fn path_below<'p>(root: &str, path: &'p str) -> Option<&'p str> {
    path.strip_prefix(root)?.strip_prefix('/')
}

/// The folder and the name of a path below that of the workspace. That folder itself is empty.
pub(crate) fn folder_and_name(path: &str) -> (&str, &str) {
    match path.rsplit_once('/') {
        Some((folder, name)) => (folder, name),
        None => ("", path),
    }
}

/// Whether no folder of a path is passed over.
pub(crate) fn is_read(folder: &str) -> bool {
    if folder.is_empty() {
        return true;
    }
    for element in folder.split('/') {
        if is_passed_over(element) {
            return false;
        }
    }
    true
}

/// Whether the file at a path below the folder of the workspace is a source file of a package, by its name and its folders.
pub(crate) fn is_source(path: &str) -> bool {
    let (folder, name) = folder_and_name(path);
    match file_kind(name) {
        FileKind::Source => is_read(folder),
        _ => false,
    }
}
