//! Places of files as a diagnostic tells them.

use crate::here::Here;
use crate::quoting::digits;
use go_block_core::graph_core::SourceFile;
use go_folder_core::{below, position_of};
use std::alloc::{AllocError, Global};

// The path of a package's folder from that of a module; the whole path of one that is not below it.
fn folder_of<'a>(module: &str, package: &'a str) -> &'a str {
    match package.strip_prefix(module) {
        Some("") => "",
        Some(rest) => match rest.strip_prefix('/') {
            Some(folder) => folder,
            None => package,
        },
        None => package,
    }
}

/// An offset of a file of the package of a path, as it is told: `lib/lib.go:7:9`, by the folder below that of the module, lines and columns counted from 1,
/// columns in bytes. The time is linear in the text up to the offset.
///
/// # Errors
///
/// `AllocError` where memory is wanting.
pub fn place_text(
    alloc: Global,
    module: &str,
    package: &str,
    file: &SourceFile,
    offset: usize,
) -> Result<String, AllocError> {
    let mut text = below(alloc, folder_of(module, package), file.name())?;
    let at = position_of(file.text(), offset);
    text.push_str(":")?;
    let line = digits(alloc, at.line)?;
    let column = digits(alloc, at.column)?;
    text.push_str(line.as_str())?;
    text.push_str(":")?;
    text.push_str(column.as_str())?;
    Ok(text)
}

/// An offset of the file of a fault, as it is told: as by [`place_text`].
///
/// # Errors
///
/// `AllocError` where memory is wanting.
pub fn place_here(alloc: Global, here: &Here<'_>, offset: usize) -> Result<String, AllocError> {
    place_text(alloc, here.module, here.path().as_str(), here.file, offset)
}
