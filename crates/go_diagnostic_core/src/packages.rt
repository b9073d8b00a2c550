//! What the package of a fault and others declare, and where: what names in a diagnostic denote.

use crate::here::Here;
use crate::place::{place_here, place_text};
use go_block_core::decl_core::{DeclKind, DeclRef, Places, outline};
use go_block_core::graph_core::{PackageSource, SourceFile};
use go_block_core::{Binding, Target};
use go_package_core::path_core::ImportPath;
use std::alloc::{AllocError, Global};

/// The package of a path in the workspace of a fault, be it checked or not; none where there is none of this path.
pub fn package_at<'s>(here: &Here<'s>, path: &str) -> Option<&'s PackageSource> {
    let packages = here.snapshot.sources().packages();
    let number = packages
        .binary_search_by(|source| source.path().as_str().cmp(path))
        .ok()?;
    packages.get(number)
}

/// The declaration of a name in the package block of the package of a fault; none where it has none, and where the package is not checked.
///
/// The Go specification, "Declarations and scope".
pub fn own_decl(here: &Here<'_>, name: &str) -> Option<DeclRef> {
    match here.snapshot.part(here.path()) {
        Some(part) => part.content().blocks.package(name),
        None => None,
    }
}

/// What the block of the file of a fault binds to a name; none where it binds nothing, and where the package is not checked.
///
/// The Go specification, "Import declarations", "Declarations and scope".
pub fn bound_here<'s>(here: &Here<'s>, name: &str) -> Option<&'s Binding> {
    match here.snapshot.part(here.path()) {
        Some(part) => part.content().blocks.in_file(here.number, name),
        None => None,
    }
}

/// The path of the package that a name of the block of the file of a fault denotes; none where it denotes none.
///
/// The Go specification, "Import declarations".
pub fn package_of_name<'s>(here: &Here<'s>, name: &str) -> Option<&'s ImportPath> {
    match bound_here(here, name) {
        Some(
            Binding {
                target: Target::Package(path),
                ..
            },
        ) => Some(path),
        _ => None,
    }
}

/// The place of the import that binds a name of the block of the file of a fault, as it is told; none where none does.
///
/// # Errors
///
/// `AllocError` where memory is wanting.
pub fn import_place(
    alloc: Global,
    here: &Here<'_>,
    name: &str,
) -> Result<Option<String>, AllocError> {
    match bound_here(here, name) {
        Some(bound) => Ok(Some(place_here(alloc, here, bound.at)?)),
        None => Ok(None),
    }
}

/// What a declaration of a package is, with its article: `a constant`.
pub fn kind_text(kind: DeclKind) -> &'static str {
    match kind {
        DeclKind::Const => "a constant",
        DeclKind::Var => "a variable",
        DeclKind::Type => "a type",
        DeclKind::Func => "a function",
        DeclKind::Method => "a method",
        DeclKind::Field => "a field",
        DeclKind::Param => "a parameter",
    }
}

// The file of a number in the package of a path.
fn file_of<'s>(here: &Here<'s>, path: &ImportPath, number: usize) -> Option<&'s SourceFile> {
    match here.snapshot.input(path) {
        Some(input) => input.package().files().get(number),
        None => None,
    }
}

/// The first byte of the identifier that a file declares outside function bodies by a number, in bytes from the file's start; none where it declares none of
/// this number.
///
/// # Errors
///
/// `AllocError` where memory is wanting.
pub fn offset_of(
    alloc: Global,
    file: &SourceFile,
    number: usize,
) -> Result<Option<usize>, AllocError> {
    match file.tree() {
        Ok(tree) => {
            let outlined = outline(alloc, tree)?;
            Ok(offset_in(&outlined.places, number))
        }
        Err(_) => Ok(None),
    }
}

// The offset of the declaration of a number.
fn offset_in(places: &Places, number: usize) -> Option<usize> {
    match places.place(number) {
        Some(place) => Some(place.at),
        None => None,
    }
}

/// The place of a declaration of the package of a path, as it is told; none where the package is not checked, and where there is no such declaration. The time is
/// linear in the file of the declaration.
///
/// # Errors
///
/// `AllocError` where memory is wanting.
pub fn place_of_decl(
    alloc: Global,
    here: &Here<'_>,
    path: &ImportPath,
    decl: DeclRef,
) -> Result<Option<String>, AllocError> {
    let Some(file) = file_of(here, path, decl.file) else {
        return Ok(None);
    };
    match offset_of(alloc, file, decl.number)? {
        Some(offset) => Ok(Some(place_text(alloc, here.module, path.as_str(), file, offset)?)),
        None => Ok(None),
    }
}

/// The place where the package that a name of the block of the file of a fault denotes declares another name, as it is told; none where it does not, and where the
/// first name denotes no package.
///
/// # Errors
///
/// `AllocError` where memory is wanting.
pub fn declared_in(
    alloc: Global,
    here: &Here<'_>,
    package: &str,
    name: &str,
) -> Result<Option<String>, AllocError> {
    let Some(path) = package_of_name(here, package) else {
        return Ok(None);
    };
    let Some(part) = here.snapshot.part(path) else {
        return Ok(None);
    };
    match part.content().blocks.package(name) {
        Some(decl) => place_of_decl(alloc, here, path, decl),
        None => Ok(None),
    }
}
