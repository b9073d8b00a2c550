//! What stands at a place of a file: the declaration that is used, imported or made there.

use crate::session::{FileName, Session};
use crate::words::{name_end, name_start, token_end};
use go_denote_core::Outcome;
use go_graph_core::SourceFile;
use go_handle_core::DeclSite;
use go_path_core::ImportPath;
use go_path_core::text_core::Rule;
use go_query_core::define;
use go_report_core::answer::Answer;
use go_snap_core::{FileIn, Snapshot};
use go_term_core::decl_core::{DeclKind, DeclRef, Places, outline};
use go_term_core::{LocalPlace, MemberPlace};
use go_tree_core::Role;
use std::alloc::{AllocError, Global};

/// The declaration that an answer has.
pub fn site_of(answer: &Answer) -> Option<DeclSite<'_>> {
    match &answer.outcome {
        Outcome::Declared(site) => Some(site.decl().site()),
        Outcome::Selected(site, _) => Some(site.decl().site()),
        Outcome::Refused(_) => None,
    }
}

// The package that the import at an offset of a file comes to.
fn imported_at<'s>(file: FileIn<'s>, offset: usize) -> Option<DeclSite<'s>> {
    let bytes = file.source.text().as_bytes();
    let made = file.made;
    for answer in &made.answers.answers {
        if answer.role != Role::Import {
            return None;
        }
        if answer.offset <= offset && offset < token_end(bytes, answer.offset) {
            return site_of(answer);
        }
    }
    None
}

// The declaration outside function bodies of the file of a number whose identifier stands at an offset; none where none stands there. What a body uses
// of a parameter or a receiver is a local, so none is one of these.
fn decl_at(places: &Places, file: usize, start: usize) -> Option<DeclRef> {
    let number = places.number(start)?;
    let place = places.place(number)?;
    if matches!(place.kind, DeclKind::Param) {
        return None;
    }
    Some(DeclRef {
        file,
        number,
        kind: place.kind,
    })
}

// The same by the text of the file.
fn decl_in(
    alloc: Global,
    source: &SourceFile,
    file: usize,
    start: usize,
) -> Result<Option<DeclRef>, AllocError> {
    match source.tree() {
        Ok(tree) => {
            let outlined = outline(alloc, tree)?;
            Ok(decl_at(&outlined.places, file, start))
        }
        Err(_) => Ok(None),
    }
}

// Where the identifier is declared that begins at an offset of a file: by its number where it is declared outside function bodies.
fn place_at(alloc: Global, file: FileIn<'_>, start: usize) -> Result<MemberPlace, AllocError> {
    match decl_in(alloc, file.source, file.number, start)? {
        Some(decl) => Ok(MemberPlace::Declared(decl)),
        None => Ok(MemberPlace::Local(LocalPlace {
            file: file.number,
            offset: start,
        })),
    }
}

// What the identifier at an offset of a file declares, where it is no use of a name.
fn declared_at<'s>(
    alloc: Global,
    file: FileIn<'s>,
    offset: usize,
) -> Result<Option<DeclSite<'s>>, AllocError> {
    let bytes = file.source.text().as_bytes();
    let start = name_start(bytes, offset);
    if start >= name_end(bytes, offset) {
        return Ok(None);
    }
    let tree = file.tree;
    if tree.name.span.start as usize == start {
        return Ok(Some(DeclSite::Package(file.part.path())));
    }
    let place = place_at(alloc, file, start)?;
    Ok(Some(DeclSite::InFile(file.part.path(), place)))
}

// What stands at an offset of a file where no name is used.
fn unused_at<'s>(
    session: &'s Session,
    name: &FileName,
    rule: Rule,
    offset: usize,
) -> Result<Option<DeclSite<'s>>, AllocError> {
    let Some(file) = session.snapshot.file(&name.package, name.name.as_str()) else {
        return Ok(None);
    };
    match rule {
        Rule::Q2 => Ok(imported_at(file, offset)),
        Rule::Q3 => declared_at(session.alloc, file, offset),
        _ => Ok(None),
    }
}

/// The declaration that stands at an offset of a file: the one that is used there, the package that is imported there, or the one that is made there.
///
/// # Errors
///
/// `AllocError` where memory is wanting.
pub fn target_at<'s>(
    session: &'s Session,
    name: &FileName,
    offset: usize,
) -> Result<Option<DeclSite<'s>>, AllocError> {
    match define(
        session.alloc,
        &session.snapshot,
        &name.package,
        name.name.as_str(),
        offset,
    ) {
        Ok(site) => Ok(Some(site.decl().site())),
        Err(Rule::M0) => Err(AllocError),
        Err(rule) => unused_at(session, name, rule, offset),
    }
}

/// The number of the package of a path among those of a snapshot.
pub fn number_of(snapshot: &Snapshot, path: &ImportPath) -> Option<usize> {
    let wanted = path.as_str();
    snapshot
        .sources()
        .packages()
        .binary_search_by(|source| source.path().as_str().cmp(wanted))
        .ok()
}

/// The package of a number and the file of a number there, if there are such.
pub fn source_of(
    snapshot: &Snapshot,
    package: usize,
    file: usize,
) -> Option<(&ImportPath, &SourceFile)> {
    let source = snapshot.sources().packages().get(package)?;
    let file = source.files().get(file)?;
    Some((source.path(), file))
}

/// A file of a package and an offset in it.
#[derive(Clone, Copy)]
pub struct FilePlace<'s> {
    pub package: &'s ImportPath,
    pub source: &'s SourceFile,
    pub offset: usize,
}

// The offset of the declaration of a number.
fn offset_at(places: &Places, number: usize) -> Option<usize> {
    match places.place(number) {
        Some(place) => Some(place.at),
        None => None,
    }
}

// The offset of the identifier that a file declares outside function bodies by a number.
fn decl_offset(
    alloc: Global,
    source: &SourceFile,
    number: usize,
) -> Result<Option<usize>, AllocError> {
    match source.tree() {
        Ok(tree) => {
            let outlined = outline(alloc, tree)?;
            Ok(offset_at(&outlined.places, number))
        }
        Err(_) => Ok(None),
    }
}

// The offset of an identifier of a file.
fn offset_in(
    alloc: Global,
    source: &SourceFile,
    place: MemberPlace,
) -> Result<Option<usize>, AllocError> {
    match place {
        MemberPlace::Local(local) => Ok(Some(local.offset)),
        MemberPlace::Declared(decl) => decl_offset(alloc, source, decl.number),
    }
}

// The number of the file of an identifier.
fn file_number(place: MemberPlace) -> usize {
    match place {
        MemberPlace::Declared(decl) => decl.file,
        MemberPlace::Local(local) => local.file,
    }
}

/// Where an identifier of a package is declared.
///
/// # Errors
///
/// `AllocError` where memory is wanting.
pub fn place_of<'s>(
    alloc: Global,
    snapshot: &'s Snapshot,
    path: &ImportPath,
    place: MemberPlace,
) -> Result<Option<FilePlace<'s>>, AllocError> {
    let Some(part) = snapshot.part(path) else {
        return Ok(None);
    };
    let Some(source) = part.input().package().files().get(file_number(place)) else {
        return Ok(None);
    };
    match offset_in(alloc, source, place)? {
        Some(offset) => Ok(Some(FilePlace {
            package: part.path(),
            source,
            offset,
        })),
        None => Ok(None),
    }
}
