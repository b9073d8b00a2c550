//! The workspace that an editor works in: its folder, its modules and their packages.

use crate::disk::Disk;
use crate::edits::{put_files, show_all};
use crate::modules::{Module, package_in};
use crate::paths::{folder_and_name, path_of_uri, trimmed};
use crate::session::Session;
use go_folder_core::{below, module_line};
use go_graph_core::Workspace;
use go_lsp_core::positions::Encoding;
use govisd_protocol::{list_at, text_at};
use serde_json::Value;
use std::alloc::{AllocError, Global};

/// How many folders are looked through for `go.work` and `go.mod`, each above the one before.
const LEVELS: usize = 64;

// The folder that the parameters of `initialize` name.
fn folder_in(alloc: Global, params: &Value) -> Result<Option<String>, AllocError> {
    if let Some(uri) = text_at(params, "/workspaceFolders/0/uri") {
        return path_of_uri(alloc, uri);
    }
    if let Some(uri) = text_at(params, "/rootUri") {
        return path_of_uri(alloc, uri);
    }
    match text_at(params, "/rootPath") {
        Some(path) => Ok(Some(String::from_str(alloc, path)?)),
        None => Ok(None),
    }
}

// A line without the comment at its end.
fn without_comment(line: &str) -> &str {
    match line.split_once("//") {
        Some((front, _)) => front,
        None => line,
    }
}

// A text without the quotation marks around it.
fn unquoted(text: &str) -> &str {
    match text.strip_prefix('"') {
        Some(rest) => rest.strip_suffix('"').unwrap_or(rest),
        None => text,
    }
}

// Adds a folder that a `go.work` names, where it lies in the folder of that file.
fn add_used(alloc: Global, folders: &mut Vec<String>, text: &str) -> Result<(), AllocError> {
    let path = trimmed(unquoted(text));
    if path.starts_with('/') || path.contains("..") {
        return Ok(());
    }
    let own = if path == "." {
        ""
    } else {
        path.strip_prefix("./").unwrap_or(path)
    };
    folders.push(String::from_str(alloc, own)?)?;
    Ok(())
}

// Takes account of a line of a `go.work` without its comment. Answers whether the next line stands in the parentheses of a `use`.
fn note_line(
    alloc: Global,
    folders: &mut Vec<String>,
    line: &str,
    is_inside: bool,
) -> Result<bool, AllocError> {
    if is_inside {
        if line == ")" {
            return Ok(false);
        }
        if !line.is_empty() {
            add_used(alloc, folders, line)?;
        }
        return Ok(true);
    }
    let Some(rest) = line.strip_prefix("use") else {
        return Ok(false);
    };
    let what = rest.trim_ascii();
    if what == "(" {
        return Ok(true);
    }
    if what.len() < rest.len() {
        add_used(alloc, folders, what)?;
    }
    Ok(false)
}

// The folders of the modules that the text of a `go.work` uses: those behind the word `use`, alone or in parentheses.
fn used_folders(alloc: Global, text: &str) -> Result<Vec<String>, AllocError> {
    let mut folders = Vec::new(alloc);
    let mut is_inside = false;
    for line in text.split('\n') {
        let bare = without_comment(line).trim_ascii();
        is_inside = note_line(alloc, &mut folders, bare, is_inside)?;
    }
    Ok(folders)
}

/// The folder of a workspace, and the modules in it.
#[derive(Drop)]
struct FoundRoot {
    folder: String,
    modules: Vec<Module>,
}

// The text of a file in a folder, if it can be read.
fn text_in<D: Disk>(
    alloc: Global,
    disk: &D,
    folder: &str,
    name: &str,
) -> Result<Option<String>, AllocError> {
    let path = below(alloc, folder, name)?;
    Ok(disk.text(path.as_str()))
}

// The path of the module whose `go.mod` lies in a folder, if one does and names one.
fn module_in<D: Disk>(alloc: Global, disk: &D, folder: &str) -> Result<Option<String>, AllocError> {
    let Some(text) = text_in(alloc, disk, folder, "go.mod")? else {
        return Ok(None);
    };
    match module_line(text.as_str()) {
        Some(line) => Ok(Some(String::from_str(alloc, line.path)?)),
        None => Ok(None),
    }
}

// Adds the module whose `go.mod` lies in a folder below another one.
fn add_module<D: Disk>(
    alloc: Global,
    disk: &D,
    modules: &mut Vec<Module>,
    root: &str,
    folder: String,
) -> Result<(), AllocError> {
    let whole = below(alloc, root, folder.as_str())?;
    if let Some(path) = module_in(alloc, disk, whole.as_str())? {
        modules.push(Module { folder, path })?;
    }
    Ok(())
}

// The modules that the `go.work` in a folder uses: none where there is no such file.
fn modules_at<D: Disk>(alloc: Global, disk: &D, folder: &str) -> Result<Vec<Module>, AllocError> {
    let mut modules = Vec::new(alloc);
    let Some(text) = text_in(alloc, disk, folder, "go.work")? else {
        return Ok(modules);
    };
    for used in used_folders(alloc, text.as_str())? {
        add_module(alloc, disk, &mut modules, folder, used)?;
    }
    Ok(modules)
}

// A folder with one module, which lies in it.
fn root_of(alloc: Global, folder: &str, path: String) -> Result<FoundRoot, AllocError> {
    let mut modules = Vec::new(alloc);
    modules.push(Module {
        folder: String::new(alloc),
        path,
    })?;
    Ok(FoundRoot {
        folder: String::from_str(alloc, folder)?,
        modules,
    })
}

// The workspace of the next `go.work` in a folder or above it that uses a module.
fn work_around<D: Disk>(
    alloc: Global,
    disk: &D,
    folder: &str,
) -> Result<Option<FoundRoot>, AllocError> {
    let mut at = folder;
    for _level in 0..LEVELS {
        let modules = modules_at(alloc, disk, at)?;
        if !modules.is_empty() {
            let folder = String::from_str(alloc, at)?;
            return Ok(Some(FoundRoot { folder, modules }));
        }
        match at.rsplit_once('/') {
            Some((above, _)) if !above.is_empty() => at = above,
            _ => break,
        }
    }
    Ok(None)
}

// The module of the next `go.mod` in a folder or above it; where there is none the folder itself, with its name as the path.
fn module_around<D: Disk>(alloc: Global, disk: &D, folder: &str) -> Result<FoundRoot, AllocError> {
    let mut at = folder;
    for _level in 0..LEVELS {
        if let Some(path) = module_in(alloc, disk, at)? {
            return root_of(alloc, at, path);
        }
        match at.rsplit_once('/') {
            Some((above, _)) if !above.is_empty() => at = above,
            _ => break,
        }
    }
    let (_, name) = folder_and_name(folder);
    root_of(alloc, folder, String::from_str(alloc, name)?)
}

// The workspace that a folder lies in.
fn root_around<D: Disk>(alloc: Global, disk: &D, folder: &str) -> Result<FoundRoot, AllocError> {
    match work_around(alloc, disk, folder)? {
        Some(found) => Ok(found),
        None => module_around(alloc, disk, folder),
    }
}

// The packages below a folder of the workspace, as those of the module of a path.
fn packages_of<D: Disk>(
    disk: &D,
    session: &Session,
    module: &Module,
) -> Result<Option<Workspace>, AllocError> {
    let whole = below(session.alloc, session.root.as_str(), module.folder.as_str())?;
    disk.packages(whole.as_str(), module.path.as_str())
}

// Whether a package that was read as one of a module is one of it, and not of a module in its folder.
fn is_of(session: &Session, module: &Module, package: &str) -> Result<bool, AllocError> {
    let alloc = session.alloc;
    let modules = session.modules.as_slice();
    let Some(behind) = package.strip_prefix(module.path.as_str()) else {
        return Ok(false);
    };
    let folder = below(
        alloc,
        module.folder.as_str(),
        behind.strip_prefix('/').unwrap_or(behind),
    )?;
    let own = package_in(alloc, modules, folder.as_str())?;
    Ok(own.as_str() == package)
}

// Puts those packages that were read as ones of a module and are of it.
fn put_own(
    session: &Session,
    module: &Module,
    read: &Workspace,
    all: &mut Workspace,
) -> Result<(), AllocError> {
    for package in read.packages() {
        if is_of(session, module, package.path().as_str())? {
            put_files(session.alloc, all, package.path(), package.files())?;
        }
    }
    Ok(())
}

// Reads the packages of several modules.
fn read_all<D: Disk>(
    disk: &D,
    session: &Session,
    modules: &[Module],
) -> Result<Workspace, AllocError> {
    let mut all = Workspace::empty(session.alloc);
    for module in modules {
        if let Some(read) = packages_of(disk, session, module)? {
            put_own(session, module, &read, &mut all)?;
        }
    }
    Ok(all)
}

// Reads the packages of the only module.
fn read_one<D: Disk>(
    disk: &D,
    session: &Session,
    module: &Module,
) -> Result<Workspace, AllocError> {
    match packages_of(disk, session, module)? {
        Some(read) => Ok(read),
        None => Ok(Workspace::empty(session.alloc)),
    }
}

// Reads the packages of the modules of a workspace.
fn read_modules<D: Disk>(disk: &D, session: &Session) -> Result<Workspace, AllocError> {
    match session.modules.as_slice() {
        [module] => read_one(disk, session, module),
        modules => read_all(disk, session, modules),
    }
}

// Opens the workspace that a folder lies in.
fn open_folder<D: Disk>(disk: &D, session: &mut Session, folder: &str) -> Result<(), AllocError> {
    let FoundRoot { folder, modules } = root_around(session.alloc, disk, trimmed(folder))?;
    session.root = folder;
    session.modules = modules;
    session.forget_told();
    let workspace = read_modules(disk, session)?;
    session.workspace = workspace;
    session.is_stale = true;
    Ok(())
}

/// Reads the folder of the workspace anew; the files that are open stay as the editor shows them. Where another folder would be that of the workspace,
/// nothing is read.
///
/// # Errors
///
/// `AllocError` where memory is wanting.
pub(crate) fn reopen<D: Disk>(disk: &D, session: &mut Session) -> Result<(), AllocError> {
    let FoundRoot { folder, modules } = root_around(session.alloc, disk, session.root.as_str())?;
    if folder.as_str() != session.root.as_str() {
        return Ok(());
    }
    session.modules = modules;
    session.forget_told();
    let workspace = read_modules(disk, session)?;
    session.workspace = workspace;
    session.is_stale = true;
    show_all(session)
}

/// Opens the workspace of the folder that the parameters of `initialize` name, if they name one.
///
/// # Errors
///
/// `AllocError` where memory is wanting.
pub fn open_module<D: Disk>(
    disk: &D,
    session: &mut Session,
    params: &Value,
) -> Result<(), AllocError> {
    match folder_in(session.alloc, params)? {
        Some(folder) => open_folder(disk, session, folder.as_str()),
        None => Ok(()),
    }
}

/// Opens the workspace that a file lies in, where none is open yet.
///
/// # Errors
///
/// `AllocError` where memory is wanting.
pub fn open_around<D: Disk>(
    disk: &D,
    session: &mut Session,
    params: &Value,
) -> Result<(), AllocError> {
    if !session.root.is_empty() {
        return Ok(());
    }
    let Some(uri) = text_at(params, "/textDocument/uri") else {
        return Ok(());
    };
    let Some(path) = path_of_uri(session.alloc, uri)? else {
        return Ok(());
    };
    match path.as_str().rsplit_once('/') {
        Some((folder, _)) => open_folder(disk, session, folder),
        None => Ok(()),
    }
}

/// What the editor counts characters in: bytes where it offers that, and else units of UTF-16.
pub fn encoding_in(params: &Value) -> Encoding {
    let Some(offered) = list_at(params, "/capabilities/general/positionEncodings") else {
        return Encoding::Utf16;
    };
    for name in offered {
        if name.as_str() == Some("utf-8") {
            return Encoding::Utf8;
        }
    }
    Encoding::Utf16
}

/// Whether the editor can be asked to say where files of the folder change.
pub fn can_watch(params: &Value) -> bool {
    match params.pointer("/capabilities/workspace/didChangeWatchedFiles/dynamicRegistration") {
        Some(value) => value.as_bool().unwrap_or(false),
        None => false,
    }
}

/// The name of an encoding.
pub fn encoding_name(encoding: Encoding) -> &'static str {
    match encoding {
        Encoding::Utf8 => "utf-8",
        Encoding::Utf16 => "utf-16",
    }
}
