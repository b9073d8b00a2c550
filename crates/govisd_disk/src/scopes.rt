//! The part of a module that was asked for.
ghost use Rattle.std.specs.Prelude.{◌≡◌, ◌++◌, IfOk, OnOk, map, option_map};
ghost use Rattle.govisd_disk.specs.Scopes.{has_any, has_fault, has_file, has_package, is_below, is_inside, packages_in, path_if, source_at};

use go_graph_core::{PackageSource, SourceFile, Workspace};
use go_snap_core::PlacedFault;
use std::alloc::{AllocError, Global};

/// The part of a module that was asked for: the packages of a folder and below it, or one file.
#[derive(Clone, Copy)]
pub struct Scope<'a> {
    /// The path of the package in the folder, whether there is one or not.
    pub package: &'a str,
    /// The name of the file in that package; empty where all files in the folder and below it are meant.
    pub file: &'a str,
}

/// Whether a package lies in a folder or below it, by its path and that of the package in the folder.
pub fn is_below(folder: &str, path: &str) -> bool
    ensures { result ≡ is_below folder.now path.now }
{
    let bytes = path.as_bytes();
    bytes.starts_with(folder.as_bytes())
        && match bytes.get(folder.len()) {
            Some(byte) => *byte == b'/',
            None => true,
        }
}

/// Whether files of a package are told of, by its path.
pub fn is_inside(scope: &Scope<'_>, path: &str) -> bool
    ensures { result ≡ is_inside (scope.now.package.now, scope.now.file.now) path.now }
{
    if scope.file.is_empty() {
        return is_below(scope.package, path);
    }
    path == scope.package
}

/// Whether a file of a package is told of, by the package's path and the file's name.
pub fn has_file(scope: &Scope<'_>, path: &str, name: &str) -> bool
    ensures { result ≡ has_file (scope.now.package.now, scope.now.file.now) path.now name.now }
{
    is_inside(scope, path) && (scope.file.is_empty() || name == scope.file)
}

/// The path of the package and the file in which a fault lies, if there is such a file.
pub fn source_of<'a>(
    workspace: &'a Workspace,
    fault: PlacedFault,
) -> Option<(&'a str, &'a SourceFile)>
    ensures { option_map (λ s. (s.0.now, s.1.now)) result ≡ source_at workspace.now fault }
{
    match workspace.packages().get(fault.package) {
        Some(package) => match package.files().get(fault.file) {
            Some(file) => Some((package.path().as_str(), file)),
            None => None,
        },
        None => None,
    }
}

/// Whether a fault lies in a file that is told of.
pub fn has_fault(scope: &Scope<'_>, workspace: &Workspace, fault: PlacedFault) -> bool
    ensures { result ≡ has_fault (scope.now.package.now, scope.now.file.now) workspace.now fault }
{
    match source_of(workspace, fault) {
        Some((path, source)) => has_file(scope, path, source.name()),
        None => false,
    }
}

// Adds a path, if it is one of those that are looked for.
fn add_if<'a>(paths: &mut Vec<&'a str>, is_one: bool, path: &'a str) -> Result<(), AllocError>
    ensures { OnOk result (map (λ p. p.now) paths.new.items ≡ map (λ p. p.now) paths.old.items ++ path_if is_one path.now) }
{
    if is_one {
        paths.push(path)?;
    }
    Ok(())
}

/// The paths of those of some packages of which files are told of.
///
/// # Errors
///
/// `AllocError` for want of memory.
pub fn packages_in<'a>(
    alloc: Global,
    scope: &Scope<'_>,
    packages: &'a [PackageSource],
) -> Result<Vec<&'a str>, AllocError>
    ensures { IfOk result (λ paths. map (λ p. p.now) paths.items ≡ packages_in (scope.now.package.now, scope.now.file.now) packages.now) }
{
    let mut paths = Vec::new(alloc);
    for package in packages {
        let path = package.path().as_str();
        add_if(&mut paths, is_inside(scope, path), path)?;
    }
    Ok(paths)
}

// Whether a file of the package of a path is told of.
fn has_source(scope: &Scope<'_>, path: &str, file: &SourceFile) -> bool
    ensures { result ≡ has_file (scope.now.package.now, scope.now.file.now) path.now file.now.name }
{
    has_file(scope, path, file.name())
}

// Whether a package has a file that is told of.
fn has_package(scope: &Scope<'_>, package: &PackageSource) -> bool
    ensures { result ≡ has_package (scope.now.package.now, scope.now.file.now) «package».now }
{
    let path = package.path().as_str();
    package
        .files()
        .iter()
        .any(|file| has_source(scope, path, file))
}

/// Whether some packages have a file that is told of.
pub(crate) fn has_any(scope: &Scope<'_>, packages: &[PackageSource]) -> bool
    ensures { result ≡ has_any (scope.now.package.now, scope.now.file.now) packages.now }
{
    packages.iter().any(|package| has_package(scope, package))
}
