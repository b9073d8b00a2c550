//! The declarations of a file, and those of all packages.

use crate::completing::begins_with;
use go_graph_core::SourceFile;
use go_package_core::package_part::Part;
use go_path_core::ImportPath;
use go_reference_core::outline::{Entry, EntryKind, entries};
use go_tree_nodes::File;
use govisd_documents::{Session, ToldFile, asked_file, location_value, told_file, told_range};
use govisd_protocol::text_at;
use serde_json::{Value, json};
use std::alloc::AllocError;

/// The most symbols that are answered of all packages.
const MOST: usize = 256;

// The number of the protocol for what a declared name is.
fn kind_number(kind: EntryKind) -> u8 {
    match kind {
        EntryKind::Named => 5,
        EntryKind::Method => 6,
        EntryKind::Field => 8,
        EntryKind::Interface => 11,
        EntryKind::Function => 12,
        EntryKind::Variable => 13,
        EntryKind::Constant => 14,
        EntryKind::Struct => 23,
    }
}

/// The names that a file declares outside functions, without the members of types, in order of place.
///
/// # Errors
///
/// `AllocError` where memory is wanting.
pub(crate) fn declared_names<'t>(
    session: &Session,
    tree: &'t File,
) -> Result<Vec<Entry<'t>>, AllocError> {
    let all = entries(session.alloc, tree)?;
    let mut names = Vec::new(session.alloc);
    for entry in &all {
        if !entry.is_member {
            names.push(*entry)?;
        }
    }
    Ok(names)
}

/// The name that an entry declares.
pub(crate) fn name_of<'t>(entry: &Entry<'t>) -> &'t str {
    let ident = entry.ident;
    ident.name.as_str()
}

/// The offset of the first byte of the name that an entry declares.
pub(crate) fn name_at(entry: &Entry<'_>) -> usize {
    let ident = entry.ident;
    ident.span.start as usize
}

// The range of the name that an entry of a file declares.
fn name_range(
    session: &Session,
    file: &ToldFile<'_>,
    entry: &Entry<'_>,
) -> Result<Value, AllocError> {
    let ident = entry.ident;
    let (start, end) = (ident.span.start as usize, ident.span.end as usize);
    told_range(session.alloc, session, file, start, end)
}

// A declared name as a value, with those in it.
fn symbol_value(
    session: &Session,
    file: &ToldFile<'_>,
    name: &Entry<'_>,
    children: Vec<Value>,
) -> Result<Value, AllocError> {
    let alloc = session.alloc;
    let range = told_range(alloc, session, file, name.start, name.end)?;
    let own = name_range(session, file, name)?;
    let text = name_of(name);
    let kind = kind_number(name.kind);
    let children = Value::Array(children);
    json!(in alloc; {"range": range, "selectionRange": own, "children": children, "name": text, "kind": kind})
}

// The members that stand after the entry of a number, as values.
fn children_of(
    session: &Session,
    file: &ToldFile<'_>,
    all: &[Entry<'_>],
    number: usize,
) -> Result<Vec<Value>, AllocError> {
    let mut children = Vec::new(session.alloc);
    let Some((_, rest)) = all.split_at_checked(number.saturating_add(1)) else {
        return Ok(children);
    };
    for member in rest {
        if !member.is_member {
            return Ok(children);
        }
        let none = Vec::new(session.alloc);
        children.push(symbol_value(session, file, member, none)?)?;
    }
    Ok(children)
}

// The declarations of a file as values.
fn symbols_of<'s>(
    session: &'s Session,
    package: &ImportPath,
    source: &'s SourceFile,
) -> Result<Vec<Value>, AllocError> {
    let mut all = Vec::new(session.alloc);
    let Ok(tree) = source.tree() else {
        return Ok(all);
    };
    let file = told_file(session, package, source)?;
    let found = entries(session.alloc, tree)?;
    for (number, entry) in found.iter().enumerate() {
        if !entry.is_member {
            let children = children_of(session, &file, &found, number)?;
            all.push(symbol_value(session, &file, entry, children)?)?;
        }
    }
    Ok(all)
}

/// The declarations of a file outside functions, each with its members.
///
/// # Errors
///
/// `AllocError` where memory is wanting.
pub fn document_symbols(session: &Session, params: &Value) -> Result<Value, AllocError> {
    let Some(name) = asked_file(session, params)? else {
        return Ok(Value::Null);
    };
    match session.snapshot.file(&name.package, name.name.as_str()) {
        Some(file) => Ok(Value::Array(symbols_of(session, &name.package, file.source)?)),
        None => Ok(Value::Null),
    }
}

// A declared name of a package as a value.
fn information(
    session: &Session,
    file: &ToldFile<'_>,
    package: &ImportPath,
    name: &Entry<'_>,
) -> Result<Value, AllocError> {
    let alloc = session.alloc;
    let range = name_range(session, file, name)?;
    let location = location_value(alloc, file.uri.as_str(), range)?;
    let text = name_of(name);
    let kind = kind_number(name.kind);
    let container = package.as_str();
    json!(in alloc; {"location": location, "name": text, "kind": kind, "containerName": container})
}

// Whether a name has a text in it, letters large or small.
fn has_text(name: &str, text: &str) -> bool {
    let name = name.as_bytes();
    for at in 0..name.len().saturating_add(1) {
        let (_, rest) = name.split_at(at.min(name.len()));
        if begins_with(rest, text.as_bytes()) {
            return true;
        }
    }
    false
}

// Adds the declared names of a file that have a text.
fn add_matching<'s>(
    session: &'s Session,
    all: &mut Vec<Value>,
    package: &ImportPath,
    source: &'s SourceFile,
    query: &str,
) -> Result<(), AllocError> {
    let Ok(tree) = source.tree() else {
        return Ok(());
    };
    let names = declared_names(session, tree)?;
    for name in &names {
        if all.len() < MOST && has_text(name_of(name), query) {
            let file = told_file(session, package, source)?;
            all.push(information(session, &file, package, name)?)?;
        }
    }
    Ok(())
}

// Adds the declared names of a package that have a text.
fn add_part<'s>(
    session: &'s Session,
    all: &mut Vec<Value>,
    part: &'s Part,
    query: &str,
) -> Result<(), AllocError> {
    for source in part.input().package().files() {
        add_matching(session, all, part.path(), source, query)?;
    }
    Ok(())
}

/// The declarations of all packages outside functions whose names have a text, letters large or small: 256 at most.
///
/// # Errors
///
/// `AllocError` where memory is wanting.
pub fn workspace_symbols(session: &Session, params: &Value) -> Result<Value, AllocError> {
    let query = text_at(params, "/query").unwrap_or("");
    let mut all = Vec::new(session.alloc);
    for part in session.snapshot.parts() {
        if let Some(part) = part {
            add_part(session, &mut all, part, query)?;
        }
    }
    Ok(Value::Array(all))
}
