//! Renaming: tried on a workspace that nobody else sees, and offered only where every name keeps its declaration and every fault stays as it was.

use crate::refusing::{first_outside, not_exported, refusal_of};
use go_diagnostic_core::snap_core::{PlacedFault, Recompiled, Snapshot, recompile};
use go_graph_core::{PackageSource, SourceFile, Workspace};
use go_handle_core::DeclSite;
use go_lsp_core::edits::{Edit, EditFault, apply_edits};
use go_path_core::ImportPath;
use go_path_core::text_core::{Rule, is_exported};
use go_reference_core::file_references;
use go_reference_core::rename::{Names, judge};
use go_scan_core::scan;
use go_term_core::MemberPlace;
use go_term_core::decl_core::DeclKind;
use go_token_core::{ScanError, TokenKind};
use govisd_documents::{
    AskedPlace, Session, ToldFile, name_end, name_start, number_of, place_of, put_texts, source_of,
    target_at, text_between, token_at, told_file, told_range,
};
use govisd_protocol::{ErrorCode, Refusal, refuse_with, text_at};
use serde_json::{Map, Value, json};
use std::alloc::{AllocError, Global};
use std::collections::BTreeMap;

/// A renaming: where a name stands, and what stands in its place.
#[derive(Drop)]
struct Renaming {
    names: Names,
    new: String,
}

// Whether a text is one identifier and nothing else.
fn is_identifier(alloc: Global, text: &str) -> Result<bool, AllocError> {
    match scan(alloc, text) {
        Ok(tokens) => match tokens.first() {
            Some(token) => Ok(
                matches!(token.kind, TokenKind::Identifier)
                    && token.span.start == 0
                    && token.span.end as usize == text.len(),
            ),
            None => Ok(false),
        },
        Err(ScanError::Memory) => Err(AllocError),
        Err(ScanError::Fault(_)) => Ok(false),
    }
}

// Whether a fault of this rule leaves a file without what its names have: its text does not parse, or its package is not assembled.
fn hides_names(rule: Rule) -> bool {
    matches!(
        rule.number().as_bytes().first(),
        Some(b'L' | b'P' | b'E' | b'K')
    )
}

// Whether each open text is compiled as it is.
fn none_is_blanked(session: &Session) -> bool {
    for document in session.documents.values() {
        if document.hidden.is_some() {
            return false;
        }
    }
    true
}

// Whether no fault leaves a file without what its names have.
fn none_hides_names(faults: &[PlacedFault]) -> bool {
    for fault in faults {
        if hides_names(fault.rule) {
            return false;
        }
    }
    true
}

// Whether each text is compiled as it is, and each package is assembled.
fn all_parse(session: &Session) -> bool {
    none_is_blanked(session) && none_hides_names(session.snapshot.faults())
}

// The offsets, in bytes, at which a file uses a declaration, and that of the declaration itself where it stands there, in order. The file is named by the number of its
// package and its own number there.
fn offsets_of(
    session: &Session,
    package: usize,
    file: usize,
    site: DeclSite<'_>,
    own: Option<usize>,
) -> Result<Vec<usize>, AllocError> {
    let uses = file_references(session.alloc, &session.snapshot, package, file, site)?;
    let mut offsets = Vec::new(session.alloc);
    for reference in &uses {
        offsets.push(reference.offset)?;
    }
    if let Some(own) = own {
        if !offsets.contains(&own) {
            offsets.push(own)?;
        }
    }
    offsets.sort_unstable();
    Ok(offsets)
}

// Where a declaration stands: the path of its package, its place there, the number of its file, and the offset in bytes.
#[derive(Clone, Copy)]
struct DeclaredAt<'s> {
    path: &'s ImportPath,
    place: MemberPlace,
    file: usize,
    offset: usize,
}

// Where a declaration of a package stands.
fn declared<'s>(
    session: &'s Session,
    site: DeclSite<'s>,
) -> Result<Option<DeclaredAt<'s>>, AllocError> {
    let DeclSite::InFile(path, place) = site else {
        return Ok(None);
    };
    let file = match place {
        MemberPlace::Declared(decl) => decl.file,
        MemberPlace::Local(local) => local.file,
    };
    match place_of(session.alloc, &session.snapshot, path, place)? {
        Some(at) => Ok(Some(DeclaredAt {
            path,
            place,
            file,
            offset: at.offset,
        })),
        None => Ok(None),
    }
}

// Where a name stands in the files of the package of a number, by the numbers of the files.
fn package_names(
    session: &Session,
    package: usize,
    source: &PackageSource,
    site: DeclSite<'_>,
    at: DeclaredAt<'_>,
) -> Result<Vec<Vec<usize>>, AllocError> {
    let mut files = Vec::new(session.alloc);
    for file in 0..source.files().len() {
        let is_own = file == at.file && source.path().is_same(at.path);
        let own = if is_own { Some(at.offset) } else { None };
        files.push(offsets_of(session, package, file, site, own)?)?;
    }
    Ok(files)
}

// Where a name stands in all files.
fn all_names(
    session: &Session,
    site: DeclSite<'_>,
    at: DeclaredAt<'_>,
) -> Result<Vec<Vec<Vec<usize>>>, AllocError> {
    let mut packages = Vec::new(session.alloc);
    for (package, source) in session.snapshot.sources().packages().iter().enumerate() {
        packages.push(package_names(session, package, source, site, at)?)?;
    }
    Ok(packages)
}

// A text in which a name that stands at these offsets is another one; the text itself where it stands at none of them.
fn renamed_text(
    alloc: Global,
    text: &str,
    renaming: &Renaming,
    offsets: &[usize],
) -> Result<String, AllocError> {
    let mut edits = Vec::new(alloc);
    for offset in offsets {
        edits.push(Edit {
            start: *offset,
            end: offset.saturating_add(renaming.names.old),
            new: renaming.new.as_str(),
        })?;
    }
    match apply_edits(alloc, text, &edits) {
        Ok(text) => Ok(text),
        Err(EditFault::Misplaced) => String::from_str(alloc, text),
        Err(EditFault::Memory) => Err(AllocError),
    }
}

// The texts of files by their names after a renaming.
fn renamed_texts(
    alloc: Global,
    renaming: &Renaming,
    files: &[SourceFile],
    offsets: &[Vec<usize>],
) -> Result<BTreeMap<String, String>, AllocError> {
    let mut texts = BTreeMap::new(alloc);
    for (file, source) in files.iter().enumerate() {
        let name = String::from_str(alloc, source.name())?;
        let text = match offsets.get(file) {
            Some(own) => renamed_text(alloc, source.text(), renaming, own)?,
            None => String::from_str(alloc, source.text())?,
        };
        if texts.insert(name, text).is_err() {
            return Err(AllocError);
        }
    }
    Ok(texts)
}

// Renames in the package of a number, where the name stands there.
fn put_renamed(
    session: &Session,
    workspace: &mut Workspace,
    renaming: &Renaming,
    package: usize,
    offsets: &[Vec<usize>],
) -> Result<(), AllocError> {
    let alloc = session.alloc;
    if offsets.iter().all(|own| own.is_empty()) {
        return Ok(());
    }
    let packages = session.snapshot.sources().packages();
    let Some(source) = packages.get(package) else {
        return Ok(());
    };
    let texts = renamed_texts(alloc, renaming, source.files(), offsets)?;
    put_texts(alloc, workspace, source.path(), texts)
}

// The snapshot of the packages after a renaming. Nobody else sees it.
fn renamed_snapshot(session: &Session, renaming: &Renaming) -> Result<Snapshot, AllocError> {
    let alloc = session.alloc;
    let mut workspace = session.workspace.copy(alloc)?;
    for (package, offsets) in renaming.names.offsets.iter().enumerate() {
        put_renamed(session, &mut workspace, renaming, package, offsets)?;
    }
    let Recompiled { snapshot, kept: _ } = recompile(alloc, &workspace, &session.snapshot)?;
    Ok(snapshot)
}

// The edit of the name at an offset of a file, as a value.
fn edit_at(
    session: &Session,
    renaming: &Renaming,
    file: &ToldFile<'_>,
    offset: usize,
) -> Result<Value, AllocError> {
    let alloc = session.alloc;
    let end = offset.saturating_add(renaming.names.old);
    let range = told_range(alloc, session, file, offset, end)?;
    let text = renaming.new.as_str();
    json!(in alloc; {"range": range, "newText": text})
}

// The edits of a file as values.
fn edits_in(
    session: &Session,
    renaming: &Renaming,
    file: &ToldFile<'_>,
    offsets: &[usize],
) -> Result<Vec<Value>, AllocError> {
    let mut edits = Vec::new(session.alloc);
    for offset in offsets {
        edits.push(edit_at(session, renaming, file, *offset)?)?;
    }
    Ok(edits)
}

// Adds the edits of a file of a package.
fn add_file<'s>(
    session: &'s Session,
    changes: &mut Map<String, Value>,
    renaming: &Renaming,
    offsets: &[usize],
    path: &ImportPath,
    source: &'s SourceFile,
) -> Result<(), AllocError> {
    let file = told_file(session, path, source)?;
    let edits = edits_in(session, renaming, &file, offsets)?;
    let uri = String::from_str(session.alloc, file.uri.as_str())?;
    match changes.insert(uri, Value::Array(edits)) {
        Ok(_) => Ok(()),
        Err(_) => Err(AllocError),
    }
}

// Adds the edits of the files of the package of a number.
fn add_edits(
    session: &Session,
    changes: &mut Map<String, Value>,
    renaming: &Renaming,
    package: usize,
    files: &[Vec<usize>],
) -> Result<(), AllocError> {
    for (file, offsets) in files.iter().enumerate() {
        if !offsets.is_empty() {
            if let Some((path, source)) = source_of(&session.snapshot, package, file) {
                add_file(session, changes, renaming, offsets, path, source)?;
            }
        }
    }
    Ok(())
}

// A renaming as the edits of files.
fn edit_value(session: &Session, renaming: &Renaming) -> Result<Value, AllocError> {
    let alloc = session.alloc;
    let mut changes = Map::new(alloc);
    for (package, files) in renaming.names.offsets.iter().enumerate() {
        add_edits(session, &mut changes, renaming, package, files)?;
    }
    let changes = Value::Object(changes);
    json!(in alloc; {"changes": changes})
}

// A renaming that is tried: its edits, or why there are none.
fn tried_renaming(
    session: &Session,
    renaming: &Renaming,
) -> Result<Result<Value, Refusal>, AllocError> {
    let after = renamed_snapshot(session, renaming)?;
    let new = renaming.new.as_str();
    match judge(
        session.alloc,
        &session.snapshot,
        &after,
        &renaming.names,
        new,
    )? {
        Some(at) => Ok(Err(refusal_of(session, &renaming.names, &after, at)?)),
        None => Ok(Ok(edit_value(session, renaming)?)),
    }
}

// That nothing is renamed, and why.
fn refused(session: &Session, obstacle: Obstacle) -> Result<Result<Value, Refusal>, AllocError> {
    Ok(Err(refuse_with(session.alloc, ErrorCode::RequestFailed, obstacle.text())?))
}

// Whether what is declared somewhere is not to have a name: a program begins with the functions `main` and `init`, and nothing else of a package is called `init`.
fn is_kept_name(place: MemberPlace, name: &str) -> bool {
    match place {
        MemberPlace::Declared(decl) => match decl.kind {
            DeclKind::Func => name == "init" || name == "main",
            DeclKind::Const | DeclKind::Var | DeclKind::Type => name == "init",
            DeclKind::Method | DeclKind::Field | DeclKind::Param => false,
        },
        MemberPlace::Local(_) => false,
    }
}

// The name that is declared at a place.
fn old_name<'s>(session: &'s Session, at: DeclaredAt<'_>) -> &'s str {
    let Some(package) = number_of(&session.snapshot, at.path) else {
        return "";
    };
    match source_of(&session.snapshot, package, at.file) {
        Some((_, source)) => {
            let end = name_end(source.text().as_bytes(), at.offset);
            text_between(source.text(), at.offset, end)
        }
        None => "",
    }
}

/// Why nothing is renamed.
#[derive(Clone, Copy)]
enum Obstacle {
    /// A file does not parse, or a package is not assembled.
    NotParsed,
    /// No name stands there.
    NoName,
    /// The workspace does not declare it.
    NotOwn,
    /// It is a package.
    Package,
    /// The new name is none.
    NewIsNone,
    /// A program begins with the functions of a name.
    OfProgram,
}

impl Obstacle {
    // What is said of it.
    fn text(self) -> &'static str {
        match self {
            Obstacle::NotParsed =>
                "a file does not parse, or a package has a fault of a rule K or E",
            Obstacle::NoName => "there is no name here",
            Obstacle::NotOwn => "this name is not declared in the workspace",
            Obstacle::Package => "packages are not renamed",
            Obstacle::NewIsNone => "the new name is not an identifier, or is _",
            Obstacle::OfProgram => "Go itself calls the functions main and init",
        }
    }
}

// Why a declaration is not renamed, by its name.
fn obstacle_of(name: &str, place: MemberPlace) -> Option<Obstacle> {
    if name.is_empty() || name == "_" {
        return Some(Obstacle::NoName);
    }
    if is_kept_name(place, name) {
        return Some(Obstacle::OfProgram);
    }
    None
}

// The declaration that is to be renamed, or why there is none.
fn to_rename<'s>(
    session: &'s Session,
    site: DeclSite<'s>,
) -> Result<Result<DeclaredAt<'s>, Obstacle>, AllocError> {
    if let DeclSite::Package(_) = site {
        return Ok(Err(Obstacle::Package));
    }
    let Some(at) = declared(session, site)? else {
        return Ok(Err(Obstacle::NotOwn));
    };
    match obstacle_of(old_name(session, at), at.place) {
        Some(obstacle) => Ok(Err(obstacle)),
        None => Ok(Ok(at)),
    }
}

// Renames a declaration of the workspace.
fn rename_site<'s>(
    session: &'s Session,
    site: DeclSite<'s>,
    new: &str,
) -> Result<Result<Value, Refusal>, AllocError> {
    let at = match to_rename(session, site)? {
        Ok(at) => at,
        Err(obstacle) => return refused(session, obstacle),
    };
    if is_kept_name(at.place, new) {
        return refused(session, Obstacle::OfProgram);
    }
    let renaming = Renaming {
        names: Names {
            old: old_name(session, at).len(),
            new: new.len(),
            offsets: all_names(session, site, at)?,
        },
        new: String::from_str(session.alloc, new)?,
    };
    let old = old_name(session, at);
    if is_exported(old) && !is_exported(new) {
        if let Some(used) = first_outside(session, &renaming.names, at.path) {
            return Ok(Err(not_exported(session, old, new, used)?));
        }
    }
    tried_renaming(session, &renaming)
}

/// The edits that rename what stands at a place to the `newName` of the parameters, as an edit of the workspace. A refusal with the code -32803 where it is not
/// renamed: the new name is no identifier, a file does not parse, no name that the workspace declares stands there, a program begins with the functions of the name, the
/// new name is not exported and another package uses the old one, or after the renaming another name would have another declaration, or a fault would come or go; the
/// last one says where a name would be declared again, or else the first place where something would change.
///
/// # Errors
///
/// `AllocError` where memory is wanting.
pub fn rename(
    session: &Session,
    at: &AskedPlace,
    params: &Value,
) -> Result<Result<Value, Refusal>, AllocError> {
    let new = text_at(params, "/newName").unwrap_or("");
    if new == "_" || !is_identifier(session.alloc, new)? {
        return refused(session, Obstacle::NewIsNone);
    }
    if !all_parse(session) {
        return refused(session, Obstacle::NotParsed);
    }
    match target_at(session, &at.file, at.on)? {
        Some(site) => rename_site(session, site, new),
        None => refused(session, Obstacle::NoName),
    }
}

// The range of the name at a place.
fn name_range(session: &Session, at: &AskedPlace) -> Result<Value, AllocError> {
    let Some(found) = session
        .snapshot
        .file(&at.file.package, at.file.name.as_str())
    else {
        return Ok(Value::Null);
    };
    let bytes = found.source.text().as_bytes();
    let file = told_file(session, found.part.path(), found.source)?;
    let (start, end) = (name_start(bytes, at.on), name_end(bytes, at.on));
    told_range(session.alloc, session, &file, start, end)
}

/// The range of the name at a place, in the encoding of the session, where it may be renamed; a refusal with the code -32803 that says why not. Null where the file of
/// the place is in no assembled package.
///
/// # Errors
///
/// `AllocError` where memory is wanting.
pub fn prepare_rename(
    session: &Session,
    at: &AskedPlace,
) -> Result<Result<Value, Refusal>, AllocError> {
    if !all_parse(session) {
        return refused(session, Obstacle::NotParsed);
    }
    let Some(site) = target_at(session, &at.file, at.on)? else {
        return refused(session, Obstacle::NoName);
    };
    match to_rename(session, site)? {
        Ok(_) => Ok(Ok(name_range(session, at)?)),
        Err(obstacle) => refused(session, obstacle),
    }
}
