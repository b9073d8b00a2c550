//! The modules that an editor works in: their folders, and the paths of their packages.

use go_folder_core::{below, package_path};
use std::alloc::{AllocError, Global};

/// A module of the workspace.
#[derive(Drop)]
pub struct Module {
    /// Its folder, below the one of the workspace; empty for that itself.
    pub folder: String,
    /// Its path, as its `go.mod` names it.
    pub path: String,
}

/// What a path is below another one: empty where it is that path itself, and none where it is not below it. Everything is below the empty path.
fn behind<'p>(front: &str, path: &'p str) -> Option<&'p str> {
    if front.is_empty() {
        return Some(path);
    }
    let rest = path.strip_prefix(front)?;
    if rest.is_empty() {
        return Some(rest);
    }
    rest.strip_prefix('/')
}

// The module of two whose folder is the longer one.
fn of_longer_folder<'m>(best: Option<&'m Module>, module: &'m Module) -> Option<&'m Module> {
    match best {
        Some(found) if found.folder.len() >= module.folder.len() => Some(found),
        _ => Some(module),
    }
}

// The module that a folder lies in: of those around it the innermost.
fn module_of_folder<'m>(modules: &'m [Module], folder: &str) -> Option<&'m Module> {
    let mut best = None;
    for module in modules {
        if behind(module.folder.as_str(), folder).is_some() {
            best = of_longer_folder(best, module);
        }
    }
    best
}

// The module of two whose path is the longer one.
fn of_longer_path<'m>(best: Option<&'m Module>, module: &'m Module) -> Option<&'m Module> {
    match best {
        Some(found) if found.path.len() >= module.path.len() => Some(found),
        _ => Some(module),
    }
}

/// The module that the package of a path lies in: of those whose paths it is below the one with the longest.
pub(crate) fn module_of_package<'m>(modules: &'m [Module], package: &str) -> Option<&'m Module> {
    let mut best = None;
    for module in modules {
        if behind(module.path.as_str(), package).is_some() {
            best = of_longer_path(best, module);
        }
    }
    best
}

/// The path of the package in a folder, which is named from that of the workspace.
///
/// # Errors
///
/// `AllocError` where memory is wanting.
pub(crate) fn package_in(
    alloc: Global,
    modules: &[Module],
    folder: &str,
) -> Result<String, AllocError> {
    let Some(module) = module_of_folder(modules, folder) else {
        return String::from_str(alloc, folder);
    };
    let own = behind(module.folder.as_str(), folder).unwrap_or("");
    package_path(alloc, module.path.as_str(), own)
}

/// The folder of the package of a path, from that of the workspace. What lies in no module has its folder as its path.
///
/// # Errors
///
/// `AllocError` where memory is wanting.
pub(crate) fn folder_of(
    alloc: Global,
    modules: &[Module],
    package: &str,
) -> Result<String, AllocError> {
    let Some(module) = module_of_package(modules, package) else {
        return String::from_str(alloc, package);
    };
    let own = behind(module.path.as_str(), package).unwrap_or("");
    below(alloc, module.folder.as_str(), own)
}

/// Whether a path is that of a module or of a package below one.
pub fn is_own(modules: &[Module], package: &str) -> bool {
    module_of_package(modules, package).is_some()
}
