//! Definitions, references and highlights.

use go_graph_core::{PackageSource, SourceFile};
use go_handle_core::DeclSite;
use go_path_core::ImportPath;
use go_reference_core::{Reference, file_references};
use go_snap_core::FileIn;
use govisd_documents::{
    AskedPlace, Session, ToldFile, file_start, location, number_of, place_of, target_at, token_end,
    token_location, told_file, told_range,
};
use serde_json::{Value, json};
use std::alloc::AllocError;

// The files of a package, as locations.
fn package_locations(session: &Session, path: &ImportPath) -> Result<Vec<Value>, AllocError> {
    let mut all = Vec::new(session.alloc);
    let Some(part) = session.snapshot.part(path) else {
        return Ok(all);
    };
    for source in part.input().package().files() {
        all.push(file_start(session, path, source)?)?;
    }
    Ok(all)
}

// Where a declaration stands, as locations.
fn site_locations(session: &Session, site: DeclSite<'_>) -> Result<Vec<Value>, AllocError> {
    match site {
        DeclSite::Package(path) => package_locations(session, path),
        DeclSite::InFile(path, place) => {
            let mut all = Vec::new(session.alloc);
            if let Some(at) = place_of(session.alloc, &session.snapshot, path, place)? {
                all.push(location(session, at)?)?;
            }
            Ok(all)
        }
        DeclSite::Universe(_) | DeclSite::ErrorMethod => Ok(Vec::new(session.alloc)),
    }
}

/// Where what stands at a place is declared: of a declaration itself, of an import's string the files of its package. Null where nothing is.
///
/// # Errors
///
/// `AllocError` where memory is wanting.
pub fn definition(session: &Session, at: &AskedPlace) -> Result<Value, AllocError> {
    match target_at(session, &at.file, at.on)? {
        Some(site) => Ok(Value::Array(site_locations(session, site)?)),
        None => Ok(Value::Null),
    }
}

// Adds the identifiers of a file that have a declaration.
fn add_file_uses<'s>(
    session: &'s Session,
    all: &mut Vec<Value>,
    package: &ImportPath,
    source: &'s SourceFile,
    found: &[Reference],
) -> Result<(), AllocError> {
    if found.is_empty() {
        return Ok(());
    }
    let file = told_file(session, package, source)?;
    for reference in found {
        all.push(token_location(session, &file, reference.offset)?)?;
    }
    Ok(())
}

// How many of references at the front stand in the file of two numbers.
fn count_in(found: &[Reference], package: usize, file: usize) -> usize {
    for (at, reference) in found.iter().enumerate() {
        if reference.package != package || reference.file != file {
            return at;
        }
    }
    found.len()
}

// Adds the references at the front that stand in the package of a number, and gives those after them.
fn add_package_uses<'s, 'r>(
    session: &'s Session,
    all: &mut Vec<Value>,
    package: usize,
    source: &'s PackageSource,
    found: &'r [Reference],
) -> Result<&'r [Reference], AllocError> {
    let mut rest = found;
    for (number, file) in source.files().iter().enumerate() {
        let count = count_in(rest, package, number);
        let (own, after) = rest.split_at(count.min(rest.len()));
        add_file_uses(session, all, source.path(), file, own)?;
        rest = after;
    }
    Ok(rest)
}

// Adds the place where a declaration stands.
fn add_declaration(
    session: &Session,
    all: &mut Vec<Value>,
    site: DeclSite<'_>,
) -> Result<(), AllocError> {
    if let DeclSite::InFile(path, place) = site {
        if let Some(at) = place_of(session.alloc, &session.snapshot, path, place)? {
            all.push(location(session, at)?)?;
        }
    }
    Ok(())
}

// All identifiers that have a declaration, in order of package, file and offset.
fn uses_of(
    session: &Session,
    site: DeclSite<'_>,
    with_declaration: bool,
) -> Result<Vec<Value>, AllocError> {
    let mut all = Vec::new(session.alloc);
    if with_declaration {
        add_declaration(session, &mut all, site)?;
    }
    let found = go_reference_core::references(session.alloc, &session.snapshot, site)?;
    let mut rest = found.as_slice();
    for (package, source) in session.snapshot.sources().packages().iter().enumerate() {
        rest = add_package_uses(session, &mut all, package, source, rest)?;
    }
    Ok(all)
}

/// The identifiers that have the declaration which stands at a place, and the declaration itself where that is wanted.
///
/// # Errors
///
/// `AllocError` where memory is wanting.
pub fn references(
    session: &Session,
    at: &AskedPlace,
    with_declaration: bool,
) -> Result<Value, AllocError> {
    match target_at(session, &at.file, at.on)? {
        Some(site) => Ok(Value::Array(uses_of(session, site, with_declaration)?)),
        None => Ok(Value::Null),
    }
}

// Adds the identifier at an offset of a file as a highlight.
fn add_highlight(
    session: &Session,
    all: &mut Vec<Value>,
    file: &ToldFile<'_>,
    offset: usize,
) -> Result<(), AllocError> {
    let alloc = session.alloc;
    let end = token_end(file.text().as_bytes(), offset);
    let range = told_range(alloc, session, file, offset, end)?;
    all.push(json!(in alloc; {"range": range})?)?;
    Ok(())
}

// Adds the identifier of a declaration as a highlight, where it stands in a file.
fn add_declared(
    session: &Session,
    all: &mut Vec<Value>,
    file: &ToldFile<'_>,
    found: FileIn<'_>,
    site: DeclSite<'_>,
) -> Result<(), AllocError> {
    let DeclSite::InFile(path, place) = site else {
        return Ok(());
    };
    let Some(declared) = place_of(session.alloc, &session.snapshot, path, place)? else {
        return Ok(());
    };
    if path.is_same(found.part.path()) && declared.source.name() == found.source.name() {
        return add_highlight(session, all, file, declared.offset);
    }
    Ok(())
}

// Adds the identifiers of a file that have a declaration as highlights.
fn add_uses(
    session: &Session,
    all: &mut Vec<Value>,
    file: &ToldFile<'_>,
    found: FileIn<'_>,
    site: DeclSite<'_>,
) -> Result<(), AllocError> {
    let alloc = session.alloc;
    let snapshot = &session.snapshot;
    let Some(package) = number_of(snapshot, found.part.path()) else {
        return Ok(());
    };
    let uses = file_references(alloc, snapshot, package, found.number, site)?;
    for reference in &uses {
        add_highlight(session, all, file, reference.offset)?;
    }
    Ok(())
}

// The identifiers of a file that have a declaration, and the declaration itself where it stands there.
fn highlights_of<'s>(
    session: &'s Session,
    found: FileIn<'s>,
    site: DeclSite<'_>,
) -> Result<Vec<Value>, AllocError> {
    let mut all = Vec::new(session.alloc);
    let file = told_file(session, found.part.path(), found.source)?;
    add_declared(session, &mut all, &file, found, site)?;
    add_uses(session, &mut all, &file, found, site)?;
    Ok(all)
}

/// The identifiers of the same file that have the declaration which stands at a place.
///
/// # Errors
///
/// `AllocError` where memory is wanting.
pub fn highlights(session: &Session, at: &AskedPlace) -> Result<Value, AllocError> {
    let Some(site) = target_at(session, &at.file, at.on)? else {
        return Ok(Value::Null);
    };
    match session
        .snapshot
        .file(&at.file.package, at.file.name.as_str())
    {
        Some(found) => Ok(Value::Array(highlights_of(session, found, site)?)),
        None => Ok(Value::Null),
    }
}
