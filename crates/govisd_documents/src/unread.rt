//! Go files that are not read.

use crate::paths::{folder_and_name, is_read};
use go_folder_core::{FileKind, file_kind};

/// Why a Go file is not read.
#[derive(Clone, Copy, Debug, PartialEq, Eq)]
pub enum Unread {
    /// It is a test.
    Test,
    /// Its own name, or that of a folder that it lies in, is passed over.
    PassedOver,
    /// It has a name that no source file may have.
    BadName,
    /// The path of its folder is no import path.
    BadFolder,
}

/// Why the file at a path below the folder of the workspace is not read, where it is a Go file; none of another file. What has a good name and lies where
/// packages are read has a folder whose path is no import path.
pub fn why_unread(path: &str) -> Option<Unread> {
    let (folder, name) = folder_and_name(path);
    if !name.ends_with(".go") {
        return None;
    }
    if !is_read(folder) {
        return Some(Unread::PassedOver);
    }
    match file_kind(name) {
        FileKind::Source => Some(Unread::BadFolder),
        FileKind::BadName => Some(Unread::BadName),
        FileKind::Other if name.ends_with("_test.go") => Some(Unread::Test),
        FileKind::Other => Some(Unread::PassedOver),
    }
}
