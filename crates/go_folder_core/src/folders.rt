//! The paths of folders, from the one that is checked, and of their packages.
ghost use Rattle.std.specs.Prelude.{◌≡◌, IfOk, string_bytes};
ghost use Rattle.go_folder_core.specs.Folders.{joined_path};

use std::alloc::{AllocError, Global};

// Two paths with a `/` between them, or the one where the other is empty.
fn join(alloc: Global, first: &str, second: &str) -> Result<String, AllocError>
    ensures { IfOk result (λ path. string_bytes path ≡ joined_path first.now second.now) }
{
    let mut path = String::from_str(alloc, first)?;
    if !first.is_empty() && !second.is_empty() {
        path.push('/')?;
    }
    path.push_str(second)?;
    Ok(path)
}

/// The path of what lies in a folder by a name, as `sub/a.go`. The folder that is checked has the empty path.
///
/// # Errors
///
/// `AllocError` for want of memory.
pub fn below(alloc: Global, folder: &str, name: &str) -> Result<String, AllocError>
    ensures { IfOk result (λ path. string_bytes path ≡ joined_path folder.now name.now) }
{
    join(alloc, folder, name)
}

/// The import path of the package in a folder: the module's own path, and below it the folder's.
///
/// # Errors
///
/// `AllocError` for want of memory.
pub fn package_path(alloc: Global, own: &str, folder: &str) -> Result<String, AllocError>
    ensures { IfOk result (λ path. string_bytes path ≡ joined_path own.now folder.now) }
{
    join(alloc, own, folder)
}
