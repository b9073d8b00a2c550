//! Completions.

use crate::forms::{Form, HalfName, NAME, formed, half_name};
use crate::kinds::{Kinds, Known, MODULE, add_kinds, kind_of, kind_of_decl};
use go_doc_core::symbol::Symbol;
use go_lsp_core::positions::Position;
use go_path_core::text_core::{Rule, add};
use go_reference_core::forms::{Formed, names_in_forms};
use go_reference_core::query_core::{PackageEntry, doc, list};
use go_snap_core::Snapshot;
use govisd_documents::{AskedPlace, Session, import_edit, name_start, shown_text, tried};
use serde_json::{Value, json};
use std::alloc::{AllocError, Global};
use std::collections::BTreeMap;

/// How many packages are offered that are not imported yet.
const MOST_PACKAGES: usize = 64;

/// The names that fit, each with the first form in which it does.
type Found = BTreeMap<String, Form>;

/// What was found of a half name.
struct Attempts {
    /// The names that fit, each with the first form in which it does.
    found: Found,
    /// What is known of names that fit in the text that was tried.
    kinds: Kinds,
}

impl Drop for Attempts {
    fn drop(self) {
        let Attempts { found: _, kinds: _ } = self;
    }
}

/// The snapshot of a text in which a half name is written whole in a form.
struct TriedForm {
    snapshot: Snapshot,
    form: Form,
}

impl Drop for TriedForm {
    fn drop(self) {
        let TriedForm {
            snapshot: _,
            form: _,
        } = self;
    }
}

// Tries a half name in a form, where a text is found that has it.
fn try_form(
    session: &Session,
    all: &mut Vec<TriedForm>,
    at: &AskedPlace,
    text: &str,
    half: HalfName,
    form: Form,
) -> Result<(), AllocError> {
    match formed(session.alloc, text, half, NAME, form)? {
        Some(text) => {
            let snapshot = tried(session, &at.file, text)?;
            add(all, TriedForm { snapshot, form })
        }
        None => Ok(()),
    }
}

// A half name in all forms that fit its place.
fn try_forms(
    session: &Session,
    at: &AskedPlace,
    text: &str,
    half: HalfName,
) -> Result<Vec<TriedForm>, AllocError> {
    let mut all = Vec::new(session.alloc);
    if half.may_be_key {
        try_form(session, &mut all, at, text, half, Form::Key)?;
    }
    try_form(session, &mut all, at, text, half, Form::Value)?;
    try_form(session, &mut all, at, text, half, Form::Call)?;
    if !half.is_behind_dot {
        try_form(session, &mut all, at, text, half, Form::Dot)?;
    }
    Ok(all)
}

// The forms that were tried, each with the place of the name in it.
fn asked_forms(
    alloc: Global,
    all: &[TriedForm],
    half: HalfName,
) -> Result<Vec<Formed<'_>>, AllocError> {
    let mut forms = Vec::new(alloc);
    for tried in all {
        let snapshot = &tried.snapshot;
        forms.push(Formed {
            snapshot,
            offset: half.start,
        })?;
    }
    Ok(forms)
}

// Adds a name that fits in a form.
fn add_found(alloc: Global, found: &mut Found, name: &str, form: Form) -> Result<(), AllocError> {
    let own = String::from_str(alloc, name)?;
    match found.insert(own, form) {
        Ok(_) => Ok(()),
        Err(_) => Err(AllocError),
    }
}

// The names that fit in one of the forms that were tried.
fn found_in(
    session: &Session,
    at: &AskedPlace,
    all: &[TriedForm],
    half: HalfName,
) -> Result<Found, AllocError> {
    let alloc = session.alloc;
    let forms = asked_forms(alloc, all, half)?;
    let fitting = names_in_forms(alloc, &forms, &at.file.package, at.file.name.as_str())?;
    let mut found = BTreeMap::new(alloc);
    for name in &fitting {
        if let Some(tried) = all.get(name.form) {
            add_found(alloc, &mut found, name.name.as_str(), tried.form)?;
        }
    }
    Ok(found)
}

// The names that fit at a half name, in one form or another.
fn found_at(
    session: &Session,
    at: &AskedPlace,
    text: &str,
    half: HalfName,
) -> Result<Attempts, AllocError> {
    let all = try_forms(session, at, text, half)?;
    let found = found_in(session, at, &all, half)?;
    let mut kinds = BTreeMap::new(session.alloc);
    for tried in &all {
        if kinds.is_empty() {
            add_kinds(session, &mut kinds, &tried.snapshot, at, half)?;
        }
    }
    Ok(Attempts { found, kinds })
}

/// Whether the bytes of a name begin with what is written of it, letters large or small.
pub(crate) fn begins_with(name: &[u8], written: &[u8]) -> bool {
    if name.len() < written.len() {
        return false;
    }
    let (front, _) = name.split_at(written.len());
    front.eq_ignore_ascii_case(written)
}

// What is written of a half name up to an offset.
fn written_of(text: &str, half: HalfName, offset: usize) -> &[u8] {
    let bytes = text.as_bytes();
    let (front, _) = bytes.split_at(offset.min(bytes.len()));
    let (_, written) = front.split_at(half.start.min(front.len()));
    written
}

// A place of a file as a value.
fn position_value(alloc: Global, position: Position) -> Result<Value, AllocError> {
    let (line, character) = (position.line, position.character);
    json!(in alloc; {"line": line, "character": character})
}

// A file as a value.
fn document_value(alloc: Global, uri: &str) -> Result<Value, AllocError> {
    json!(in alloc; {"uri": uri})
}

// By what an item is found again: the file, the place and the form.
fn item_data(session: &Session, at: &AskedPlace, form: Form) -> Result<Value, AllocError> {
    let alloc = session.alloc;
    let uri = session.uri_of(at.path.as_str())?;
    let document = document_value(alloc, uri.as_str())?;
    let position = position_value(alloc, at.position)?;
    let form = form.number();
    json!(in alloc; {"textDocument": document, "position": position, "form": form})
}

// An item of which no more is known.
fn bare_item(alloc: Global, name: &str, kind: u8, data: Value) -> Result<Value, AllocError> {
    json!(in alloc; {"data": data, "label": name, "kind": kind})
}

// An item with what is known of its name.
fn known_item(alloc: Global, name: &str, known: &Known, data: Value) -> Result<Value, AllocError> {
    let (kind, detail) = (known.kind, known.detail.as_str());
    json!(in alloc; {"data": data, "label": name, "kind": kind, "detail": detail})
}

// A name that fits as an item.
fn item_of(
    session: &Session,
    at: &AskedPlace,
    tries: &Attempts,
    half: HalfName,
    name: &str,
    form: Form,
) -> Result<Value, AllocError> {
    let alloc = session.alloc;
    let data = item_data(session, at, form)?;
    match tries.kinds.get(name) {
        Some(known) if form != Form::Key => known_item(alloc, name, known, data),
        _ => bare_item(alloc, name, kind_of(form, half, name), data),
    }
}

// The names that fit as items.
fn items_of(
    session: &Session,
    at: &AskedPlace,
    tries: &Attempts,
    half: HalfName,
    written: &[u8],
) -> Result<Vec<Value>, AllocError> {
    let mut items = Vec::new(session.alloc);
    for (name, form) in &tries.found {
        if begins_with(name.as_bytes(), written) {
            items.push(item_of(session, at, tries, half, name.as_str(), *form)?)?;
        }
    }
    Ok(items)
}

// The name before the dot that stands before a half name.
fn qualifier(text: &str, half: HalfName) -> Option<&str> {
    let (front, _) = text.split_at_checked(half.start)?;
    let owner = front.strip_suffix('.')?;
    let start = name_start(owner.as_bytes(), owner.len());
    let (_, name) = owner.split_at_checked(start)?;
    if name.is_empty() { None } else { Some(name) }
}

// A name that a package of a path exports as an item, with the edit that imports the package.
fn exported_item(
    alloc: Global,
    symbol: &Symbol<'_>,
    path: &str,
    edit: &Value,
) -> Result<Value, AllocError> {
    let detail = format!(in alloc; "from \"{path}\"")?;
    let name = symbol.name;
    let comment = symbol.doc;
    let kind = kind_of_decl(symbol.kind);
    json!(in alloc; {"detail": detail, "label": name, "kind": kind, "documentation": comment, "additionalTextEdits": edit})
}

// Adds names that a package of a path exports, each with the edit that imports the package.
fn add_symbols(
    alloc: Global,
    items: &mut Vec<Value>,
    symbols: &[Symbol<'_>],
    path: &str,
    edit: &Value,
) -> Result<(), AllocError> {
    for symbol in symbols {
        items.push(exported_item(alloc, symbol, path, edit)?)?;
    }
    Ok(())
}

// Adds the names that a package exports which is not imported yet, each with the edit that imports it.
fn add_exported(
    session: &Session,
    items: &mut Vec<Value>,
    at: &AskedPlace,
    text: &str,
    path: &str,
) -> Result<(), AllocError> {
    let alloc = session.alloc;
    let told = match doc(alloc, &session.snapshot, &at.file.package, path) {
        Ok(told) => told,
        Err(Rule::M0) => return Err(AllocError),
        Err(_) => return Ok(()),
    };
    let edit = import_edit(session, &at.file, text, path)?;
    add_symbols(alloc, items, &told.symbols, path, &edit)
}

// Adds the names of packages that could be imported and have the name of a qualifier.
fn add_importable(
    session: &Session,
    items: &mut Vec<Value>,
    at: &AskedPlace,
    text: &str,
    qualifier: &str,
) -> Result<(), AllocError> {
    let listing = match list(session.alloc, &session.snapshot, &at.file.package) {
        Ok(listing) => listing,
        Err(Rule::M0) => return Err(AllocError),
        Err(_) => return Ok(()),
    };
    for entry in &listing.importable {
        if is_named(entry, qualifier) {
            add_exported(session, items, at, text, entry.path().as_str())?;
        }
    }
    Ok(())
}

// Whether a package has a name.
fn is_named(entry: &PackageEntry<'_>, name: &str) -> bool {
    entry.name() == name
}

// A package of a path that could be imported as an item, with the edit that imports it.
fn package_item(alloc: Global, name: &str, path: &str, edit: Value) -> Result<Value, AllocError> {
    let detail = format!(in alloc; "package \"{path}\"")?;
    json!(in alloc; {"detail": detail, "additionalTextEdits": edit, "label": name, "kind": MODULE})
}

// Adds a package that could be imported, with the edit that imports it.
fn add_entry(
    session: &Session,
    items: &mut Vec<Value>,
    at: &AskedPlace,
    text: &str,
    entry: &PackageEntry<'_>,
) -> Result<(), AllocError> {
    let path = entry.path().as_str();
    let edit = import_edit(session, &at.file, text, path)?;
    items.push(package_item(session.alloc, entry.name(), path, edit)?)?;
    Ok(())
}

// Adds packages that could be imported and whose names begin with what is written.
fn add_packages(
    session: &Session,
    items: &mut Vec<Value>,
    at: &AskedPlace,
    text: &str,
    found: &Found,
    written: &[u8],
) -> Result<(), AllocError> {
    let listing = match list(session.alloc, &session.snapshot, &at.file.package) {
        Ok(listing) => listing,
        Err(Rule::M0) => return Err(AllocError),
        Err(_) => return Ok(()),
    };
    let most = items.len().saturating_add(MOST_PACKAGES);
    for entry in &listing.importable {
        let fits = begins_with(entry.name().as_bytes(), written)
            && !found.contains_key(entry.name());
        if fits && items.len() < most {
            add_entry(session, items, at, text, entry)?;
        }
    }
    Ok(())
}

// The items for a half name: none in a comment or a string.
fn completed(
    session: &Session,
    at: &AskedPlace,
    text: &str,
    half: HalfName,
) -> Result<Vec<Value>, AllocError> {
    if !half.is_code {
        return Ok(Vec::new(session.alloc));
    }
    let tries = found_at(session, at, text, half)?;
    let written = written_of(text, half, at.offset);
    let mut items = items_of(session, at, &tries, half, written)?;
    if half.is_behind_dot {
        if tries.found.is_empty() {
            if let Some(name) = qualifier(text, half) {
                add_importable(session, &mut items, at, text, name)?;
            }
        }
    } else if !written.is_empty() && !tries.found.is_empty() {
        add_packages(session, &mut items, at, text, &tries.found, written)?;
    }
    Ok(items)
}

/// The names that may be written at a place of an open file: those that fit there in one of the forms that are tried, packages that could be imported, and after
/// the name of one of these those that it exports, with the edit that imports it. Packages come once a letter is written, so before it the list is told as one
/// that is not complete. In a comment and in a string there are none.
///
/// # Errors
///
/// `AllocError` where memory is wanting.
pub fn completion(session: &Session, at: &AskedPlace) -> Result<Value, AllocError> {
    let alloc = session.alloc;
    let Some(text) = shown_text(session, at) else {
        return Ok(Value::Null);
    };
    let half = half_name(text, at.offset);
    let has_more = half.is_code
        && !half.is_behind_dot
        && written_of(text, half, at.offset).is_empty();
    let items = Value::Array(completed(session, at, text, half)?);
    json!(in alloc; {"isIncomplete": has_more, "items": items})
}
