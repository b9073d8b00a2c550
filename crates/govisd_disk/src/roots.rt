//! From a folder to the module that it lies in.

use crate::folders::folder_of;
use crate::notes::{name_or_quotes, note, note_rule, note_unread, push_number};
use crate::putting::path_of;
use crate::reading::text_at;
use go_folder_core::{below, is_passed_over, module_line, package_path};
use go_path_core::text_core::Rule;
use std::alloc::{AllocError, Global};
use std::path::Path;

/// The folder of a module that is read, and the one in it whose packages are told.
#[derive(Drop)]
pub(crate) struct Root {
    /// The folder that is read.
    pub(crate) folder: String,
    /// The path of the package in it.
    pub(crate) own: String,
    /// The path of the package in the folder whose packages are told.
    pub(crate) told: String,
}

/// The module that a folder lies in, by a `go.mod` in it or above it.
#[derive(Drop)]
pub(crate) enum Above {
    /// There is no such file.
    Nowhere,
    /// It names no module, for what is to be said.
    Refused(String),
    /// It names one.
    Found(Root),
}

// The path of a folder from that of another, in which or below which it lies.
fn rest_of<'a>(root: &str, folder: &'a str) -> &'a str {
    if root == "/" {
        return folder.strip_prefix('/').unwrap_or(folder);
    }
    folder_of(root, folder)
}

// Whether a path names a folder that is passed over.
fn has_passed_over(path: &str) -> bool {
    for name in path.split('/') {
        if is_passed_over(name) {
            return true;
        }
    }
    false
}

// The root of a folder that lies in another one, which is the folder of a module of this path. Where the folder is one of those that are passed over, it
// is read alone.
fn root_in(alloc: Global, module: &str, root: &str, folder: &str) -> Result<Root, AllocError> {
    let rest = rest_of(root, folder);
    let told = package_path(alloc, module, rest)?;
    if has_passed_over(rest) {
        return Ok(Root {
            folder: String::from_str(alloc, folder)?,
            own: String::from_str(alloc, told.as_str())?,
            told,
        });
    }
    Ok(Root {
        folder: String::from_str(alloc, root)?,
        own: String::from_str(alloc, module)?,
        told,
    })
}

// There is no module, since a line of a `go.mod` names none.
fn refuse_line(alloc: Global, name: &str, line: usize) -> Result<Above, AllocError> {
    let mut place = String::from_str(alloc, name)?;
    place.push_str(":")?;
    push_number(alloc, &mut place, line)?;
    let mut said = String::new(alloc);
    note_rule(&mut said, place.as_str(), Rule::O2)?;
    Ok(Above::Refused(said))
}

// The module that the text of a `go.mod` names.
fn module_in(
    alloc: Global,
    name: &str,
    text: &str,
    root: &str,
    folder: &str,
) -> Result<Above, AllocError> {
    let Some(found) = module_line(text) else {
        let mut said = String::new(alloc);
        note(
            &mut said,
            name,
            "no line names a module, as module example.com/mine",
        )?;
        return Ok(Above::Refused(said));
    };
    let path = path_of(alloc, found.path)?;
    match path {
        Some(_) => Ok(Above::Found(root_in(alloc, found.path, root, folder)?)),
        None => refuse_line(alloc, name, found.line),
    }
}

// The module of a `go.mod`, which is called so where it is told of.
fn module_at(
    rt: &HostRuntime,
    name: &str,
    path: &str,
    root: &str,
    folder: &str,
) -> Result<Above, AllocError> {
    let alloc = rt.alloc();
    let mut said = String::new(alloc);
    match text_at(rt, path) {
        Ok(Ok(text)) => return module_in(alloc, name, text.as_str(), root, folder),
        Ok(Err(rule)) => note_rule(&mut said, name, rule)?,
        Err(error) => note_unread(alloc, &mut said, name, &error)?,
    }
    Ok(Above::Refused(said))
}

// What a `go.mod` is called: by the folder as it was given, where it lies there, and else by its path.
fn name_of(alloc: Global, given: &str, path: &str, is_own: bool) -> Result<String, AllocError> {
    if !is_own {
        return String::from_str(alloc, path);
    }
    if given == "." {
        return String::from_str(alloc, "go.mod");
    }
    below(alloc, name_or_quotes(given), "go.mod")
}

/// The module that a folder lies in, by the first `go.mod` in it and in the folders above it. The folder was given by a name.
///
/// # Errors
///
/// `AllocError` for want of memory.
pub(crate) fn module_above(
    rt: &HostRuntime,
    given: &str,
    folder: &str,
) -> Result<Above, AllocError> {
    let alloc = rt.alloc();
    for root in Path::new(folder).ancestors() {
        let path = root.join(alloc, "go.mod")?;
        if path.is_file(rt) {
            let name = name_of(alloc, given, path.as_str(), root.as_str() == folder)?;
            return module_at(rt, name.as_str(), path.as_str(), root.as_str(), folder);
        }
    }
    Ok(Above::Nowhere)
}
