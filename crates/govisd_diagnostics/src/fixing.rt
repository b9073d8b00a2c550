//! Changes that mend a fault. Each is tried on a workspace that nobody else sees, and offered only where the fault goes and no other one comes.

use crate::publishing::{hidden_in, is_shown, path_in};
use go_diagnostic_core::snap_core::{FileIn, PlacedFault, Recompiled, recompile};
use go_diagnostic_core::{nearest_import, nearest_name};
use go_lsp_core::positions::Range;
use go_path_core::text_core::Rule;
use go_reference_core::query_core::list;
use govisd_documents::{
    FileName, Insertion, Session, ToldFile, asked_file, import_of, text_between, token_at,
    token_end, told_file, told_range, with_file,
};
use govisd_protocol::{list_at, range_at};
use serde_json::{Map, Value, json};
use std::alloc::{AllocError, Global};

/// How many faults are looked at for one request, and up to how many changes imports are added for one fault.
const MOST: usize = 8;

/// How many ranges are looked at for one request.
const SPANS: usize = 16;

/// A change of a file: the text between two offsets, in bytes, becomes another one.
#[derive(Drop)]
struct Change {
    /// What it is called.
    title: String,
    start: usize,
    end: usize,
    new: String,
}

// A text after a change.
fn changed_text(session: &Session, text: &str, change: &Change) -> Result<String, AllocError> {
    let mut all = String::from_str(session.alloc, text_between(text, 0, change.start))?;
    all.push_str(change.new.as_str())?;
    all.push_str(text_between(text, change.end, text.len()))?;
    Ok(all)
}

// Where an offset of the changed file comes to lie.
fn moved(change: &Change, offset: usize) -> usize {
    if offset < change.end {
        return offset;
    }
    offset
        .saturating_sub(change.end)
        .saturating_add(change.start)
        .saturating_add(change.new.len())
}

// Whether a fault is another one after the change of the file of a fault.
fn is_kept(change: &Change, mended: PlacedFault, old: PlacedFault, new: PlacedFault) -> bool {
    let is_in_file = old.package == mended.package && old.file == mended.file;
    let offset = if is_in_file {
        moved(change, old.offset)
    } else {
        old.offset
    };
    old.package == new.package
        && old.file == new.file
        && old.rule == new.rule
        && offset == new.offset
}

// The number behind the first fault from a number on that is this one after the change.
fn behind_kept(
    change: &Change,
    mended: PlacedFault,
    before: &[PlacedFault],
    from: usize,
    fault: PlacedFault,
) -> Option<usize> {
    for at in from..before.len() {
        if let Some(old) = before.get(at) {
            if is_kept(change, mended, *old, fault) {
                return Some(at.saturating_add(1));
            }
        }
    }
    None
}

// Whether each fault behind a change was there before it, and the mended one is gone.
fn is_mended(
    change: &Change,
    mended: PlacedFault,
    before: &[PlacedFault],
    after: &[PlacedFault],
) -> bool {
    let mut from = 0;
    for fault in after {
        if is_kept(change, mended, mended, *fault) {
            return false;
        }
        match behind_kept(change, mended, before, from, *fault) {
            Some(next) => from = next,
            None => return false,
        }
    }
    true
}

// Whether a change mends a fault of a file, tried on a workspace that nobody else sees.
fn does_mend(
    session: &Session,
    name: &FileName,
    text: &str,
    change: &Change,
    mended: PlacedFault,
) -> Result<bool, AllocError> {
    let changed = changed_text(session, text, change)?;
    let workspace = with_file(session, name, changed)?;
    let Recompiled { snapshot, kept: _ } = recompile(session.alloc, &workspace, &session.snapshot)?;
    Ok(is_mended(change, mended, session.snapshot.faults(), snapshot.faults()))
}

// What it is called to write a name in place of another one.
fn changing_title(alloc: Global, old: &str, new: &str) -> Result<String, AllocError> {
    format!(in alloc; "change {old} to {new}")
}

// The name that may be meant in place of a token.
fn name_change(
    session: &Session,
    name: &FileName,
    offset: usize,
    token: &str,
) -> Result<Option<Change>, AllocError> {
    let alloc = session.alloc;
    let near = nearest_name(
        alloc,
        &session.snapshot,
        &name.package,
        name.name.as_str(),
        offset,
        token,
    )?;
    match near {
        Some(new) => Ok(Some(Change {
            title: changing_title(alloc, token, new.as_str())?,
            start: offset,
            end: offset.saturating_add(token.len()),
            new,
        })),
        None => Ok(None),
    }
}

// The path that may be meant in place of the one of an import.
fn path_change(
    session: &Session,
    name: &FileName,
    offset: usize,
    token: &str,
) -> Result<Option<Change>, AllocError> {
    let alloc = session.alloc;
    let Some(path) = path_in(token) else {
        return Ok(None);
    };
    let near = nearest_import(alloc, &session.snapshot, &name.package, path)?;
    match near {
        Some(new) => {
            let shown = new.as_str();
            Ok(Some(Change {
                title: format!(in alloc; "import {shown}")?,
                start: offset,
                end: offset.saturating_add(token.len()),
                new: format!(in alloc; "\"{shown}\"")?,
            }))
        }
        None => Ok(None),
    }
}

// The import of a path that is added to a file.
fn import_change(
    session: &Session,
    name: &FileName,
    path: &str,
) -> Result<Option<Change>, AllocError> {
    let alloc = session.alloc;
    match import_of(session, name, path)? {
        Some(Insertion { offset, text }) => Ok(Some(Change {
            title: format!(in alloc; "import {path}")?,
            start: offset,
            end: offset,
            new: text,
        })),
        None => Ok(None),
    }
}

// Adds the imports of the packages that could be imported and have a name.
fn add_imports(
    session: &Session,
    changes: &mut Vec<Change>,
    name: &FileName,
    token: &str,
) -> Result<(), AllocError> {
    let listing = match list(session.alloc, &session.snapshot, &name.package) {
        Ok(listing) => listing,
        Err(Rule::M0) => return Err(AllocError),
        Err(_) => return Ok(()),
    };
    for entry in &listing.importable {
        if entry.name() == token && changes.len() < MOST {
            if let Some(change) = import_change(session, name, entry.path().as_str())? {
                changes.push(change)?;
            }
        }
    }
    Ok(())
}

// What may mend a fault at a token.
fn changes_for(
    session: &Session,
    name: &FileName,
    fault: PlacedFault,
    token: &str,
) -> Result<Vec<Change>, AllocError> {
    let mut changes = Vec::new(session.alloc);
    let found = match fault.rule {
        Rule::I2 => path_change(session, name, fault.offset, token)?,
        Rule::N1 | Rule::N2 | Rule::N3 | Rule::S1 | Rule::F1 => {
            name_change(session, name, fault.offset, token)?
        }
        _ => None,
    };
    if let Some(change) = found {
        changes.push(change)?;
    }
    if matches!(fault.rule, Rule::N1) {
        add_imports(session, &mut changes, name, token)?;
    }
    Ok(changes)
}

// Edits of the file of a name, as an edit of the workspace.
fn workspace_edit(alloc: Global, uri: &str, edits: Value) -> Result<Value, AllocError> {
    let uri = String::from_str(alloc, uri)?;
    let mut changes = Map::new(alloc);
    if changes.insert(uri, edits).is_err() {
        return Err(AllocError);
    }
    let changes = Value::Object(changes);
    json!(in alloc; {"changes": changes})
}

// What a change of a file edits, as an edit of the workspace.
fn change_edit(
    session: &Session,
    told: &ToldFile<'_>,
    change: &Change,
) -> Result<Value, AllocError> {
    let alloc = session.alloc;
    let range = told_range(alloc, session, told, change.start, change.end)?;
    let new = change.new.as_str();
    let edits = json!(in alloc; [{"range": range, "newText": new}])?;
    workspace_edit(alloc, told.uri.as_str(), edits)
}

// A change as an action of the editor.
fn action(session: &Session, told: &ToldFile<'_>, change: &Change) -> Result<Value, AllocError> {
    let alloc = session.alloc;
    let edit = change_edit(session, told, change)?;
    let title = change.title.as_str();
    json!(in alloc; {"edit": edit, "title": title, "kind": "quickfix"})
}

// Adds the changes that mend a fault.
fn add_actions(
    session: &Session,
    all: &mut Vec<Value>,
    name: &FileName,
    told: &ToldFile<'_>,
    text: &str,
    fault: PlacedFault,
) -> Result<(), AllocError> {
    let token = token_at(text, fault.offset);
    let changes = changes_for(session, name, fault, token)?;
    for change in &changes {
        if does_mend(session, name, text, change, fault)? {
            all.push(action(session, told, change)?)?;
        }
    }
    Ok(())
}

/// What lies between two offsets of a text, in bytes.
#[derive(Clone, Copy)]
struct Span {
    start: usize,
    end: usize,
}

// Whether the token at an offset of a text touches one of these spans.
fn touches(text: &str, offset: usize, spans: &[Span]) -> bool {
    let end = token_end(text.as_bytes(), offset);
    for span in spans {
        if offset <= span.end && span.start <= end {
            return true;
        }
    }
    false
}

// Adds the span of a range of a file, if there is one.
fn add_span(
    session: &Session,
    spans: &mut Vec<Span>,
    told: &ToldFile<'_>,
    range: Option<Range>,
) -> Result<(), AllocError> {
    if let Some(range) = range {
        spans.push(Span {
            start: told.lines.offset_of(session.encoding, range.start),
            end: told.lines.offset_of(session.encoding, range.end),
        })?;
    }
    Ok(())
}

// The spans of a file that the parameters name: the range that is asked for, and those of the diagnostics that the editor shows there, as on the cursor's line.
fn asked_spans(
    session: &Session,
    params: &Value,
    told: &ToldFile<'_>,
) -> Result<Vec<Span>, AllocError> {
    let mut spans = Vec::new(session.alloc);
    add_span(session, &mut spans, told, range_at(params, "/range"))?;
    if let Some(shown) = list_at(params, "/context/diagnostics") {
        for diagnostic in shown {
            if spans.len() < SPANS {
                add_span(session, &mut spans, told, range_at(diagnostic, "/range"))?;
            }
        }
    }
    Ok(spans)
}

// The faults of a file whose tokens touch one of these spans: the first ones.
fn faults_in(
    session: &Session,
    file: FileIn<'_>,
    path: &str,
    spans: &[Span],
) -> Result<Vec<PlacedFault>, AllocError> {
    let hidden = hidden_in(session, path);
    let mut faults = Vec::new(session.alloc);
    let packages = session.snapshot.sources().packages();
    for fault in session.snapshot.faults() {
        let is_here = match packages.get(fault.package) {
            Some(source) => { fault.file == file.number && source.path().is_same(file.part.path()) }
            None => false,
        };
        if is_here
            && faults.len() < MOST
            && touches(file.source.text(), fault.offset, spans)
            && is_shown(hidden, *fault)
        {
            faults.push(*fault)?;
        }
    }
    Ok(faults)
}

// The changes that mend faults of a file where the parameters ask for them.
fn actions_in<'s>(
    session: &'s Session,
    params: &Value,
    name: &FileName,
    file: FileIn<'s>,
) -> Result<Vec<Value>, AllocError> {
    let mut all = Vec::new(session.alloc);
    let told = told_file(session, file.part.path(), file.source)?;
    let path = session.file_path(file.part.path().as_str(), file.source.name())?;
    let spans = asked_spans(session, params, &told)?;
    let faults = faults_in(session, file, path.as_str(), spans.as_slice())?;
    for fault in &faults {
        add_actions(session, &mut all, name, &told, file.source.text(), *fault)?;
    }
    Ok(all)
}

// Whether quick fixes are among the kinds of actions that the parameters ask for; so they are where the parameters name none.
fn wants_fixes(params: &Value) -> bool {
    let Some(kinds) = list_at(params, "/context/only") else {
        return true;
    };
    for kind in kinds {
        if kind.as_str() == Some("quickfix") || kind.as_str() == Some("") {
            return true;
        }
    }
    false
}

/// The quick fixes for the faults that the range of `textDocument/codeAction` touches, or those of the diagnostics in its context, as a list of code actions: the name
/// or the path that is nearest to what is written, and imports of packages that could be imported. Each was tried, mends its fault and brings no other one. Null where
/// the parameters name no file of an assembled package, an empty list where they name no range or other kinds of actions alone, or nothing mends.
///
/// # Errors
///
/// `AllocError` where memory is wanting.
pub fn code_actions(session: &Session, params: &Value) -> Result<Value, AllocError> {
    let Some(name) = asked_file(session, params)? else {
        return Ok(Value::Null);
    };
    if !wants_fixes(params) {
        return Ok(Value::Array(Vec::new(session.alloc)));
    }
    match session.snapshot.file(&name.package, name.name.as_str()) {
        Some(file) => Ok(Value::Array(actions_in(session, params, &name, file)?)),
        None => Ok(Value::Null),
    }
}
