//! What is known of names that are offered: their kinds, and how they are declared.

use crate::forms::{Form, HalfName};
use crate::hovering::typed;
use crate::symbols::{declared_names, name_of};
use crate::written::type_text;
use go_graph_core::SourceFile;
use go_handle_core::DeclSite;
use go_path_core::ImportPath;
use go_path_core::text_core::Rule;
use go_reference_core::outline::{Entry, EntryKind};
use go_reference_core::query_core::define;
use go_snap_core::{FileIn, Snapshot};
use go_term_core::TypeTerm;
use go_term_core::decl_core::DeclKind;
use go_tree_nodes::File;
use govisd_documents::{AskedPlace, Session, text_between, token_at};
use std::alloc::AllocError;
use std::collections::BTreeMap;

/// The kinds of completions, by the numbers of the protocol.
const METHOD: u8 = 2;

const FUNCTION: u8 = 3;

const FIELD: u8 = 5;

const VARIABLE: u8 = 6;

const CLASS: u8 = 7;

const INTERFACE: u8 = 8;

pub const MODULE: u8 = 9;

const CONSTANT: u8 = 21;

const STRUCT: u8 = 22;

/// What is known of a name.
#[derive(Drop)]
pub(crate) struct Known {
    pub kind: u8,
    /// How it is declared, or its type.
    pub detail: String,
}

/// What is known of names.
pub(crate) type Kinds = BTreeMap<String, Known>;

/// What a name is that is declared so.
pub(crate) fn kind_of_decl(kind: DeclKind) -> u8 {
    match kind {
        DeclKind::Const => CONSTANT,
        DeclKind::Var | DeclKind::Param => VARIABLE,
        DeclKind::Type => CLASS,
        DeclKind::Func => FUNCTION,
        DeclKind::Method => METHOD,
        DeclKind::Field => FIELD,
    }
}

// What a symbol is as a completion.
fn kind_of_symbol(kind: EntryKind) -> u8 {
    match kind {
        EntryKind::Method => METHOD,
        EntryKind::Field => FIELD,
        EntryKind::Interface => INTERFACE,
        EntryKind::Function => FUNCTION,
        EntryKind::Variable => VARIABLE,
        EntryKind::Constant => CONSTANT,
        EntryKind::Struct => STRUCT,
        EntryKind::Named => CLASS,
    }
}

// What a bare name is of which nothing is known: a predeclared one, or by the form in which it fits.
fn kind_of_bare(form: Form, name: &str) -> u8 {
    match name {
        "true" | "false" | "nil" | "iota" => CONSTANT,
        "any" | "bool" | "error" | "int" | "string" => CLASS,
        _ => {
            if form == Form::Call {
                FUNCTION
            } else {
                VARIABLE
            }
        }
    }
}

/// What a name is of which nothing is known, by the form in which it fits.
pub(crate) fn kind_of(form: Form, half: HalfName, name: &str) -> u8 {
    match form {
        Form::Key => FIELD,
        Form::Dot => MODULE,
        Form::Call if half.is_behind_dot => METHOD,
        Form::Value if half.is_behind_dot => FIELD,
        _ => kind_of_bare(form, name),
    }
}

// The first line of a text, without the brace at its end.
fn first_line(text: &str) -> &str {
    let line = match text.split_once('\n') {
        Some((front, _)) => front,
        None => text,
    };
    let bare = line.trim_ascii();
    bare.strip_suffix('{').unwrap_or(bare).trim_ascii()
}

// Adds what is known of a name.
fn add_known(kinds: &mut Kinds, name: String, known: Known) -> Result<(), AllocError> {
    match kinds.insert(name, known) {
        Ok(_) => Ok(()),
        Err(_) => Err(AllocError),
    }
}

// Adds a declared name of a file with a text; methods are no names of a package.
fn add_declared(
    session: &Session,
    kinds: &mut Kinds,
    text: &str,
    declared: &Entry<'_>,
) -> Result<(), AllocError> {
    if matches!(declared.kind, EntryKind::Method) {
        return Ok(());
    }
    let head = first_line(text_between(text, declared.start, declared.head_end));
    let known = Known {
        kind: kind_of_symbol(declared.kind),
        detail: String::from_str(session.alloc, head)?,
    };
    let name = String::from_str(session.alloc, name_of(declared))?;
    add_known(kinds, name, known)
}

// Adds the declared names of a file.
fn add_file(session: &Session, kinds: &mut Kinds, source: &SourceFile) -> Result<(), AllocError> {
    let Ok(tree) = source.tree() else {
        return Ok(());
    };
    let names = declared_names(session, tree)?;
    for declared in &names {
        add_declared(session, kinds, source.text(), declared)?;
    }
    Ok(())
}

// Adds the declared names of the package of a path.
fn add_package(
    session: &Session,
    kinds: &mut Kinds,
    snapshot: &Snapshot,
    path: &ImportPath,
) -> Result<(), AllocError> {
    let Some(part) = snapshot.part(path) else {
        return Ok(());
    };
    for source in part.input().package().files() {
        add_file(session, kinds, source)?;
    }
    Ok(())
}

// Where the declaration begins that an offset lies in.
fn declaration_start(session: &Session, tree: &File, offset: usize) -> Result<usize, AllocError> {
    let names = declared_names(session, tree)?;
    for declared in &names {
        if declared.start <= offset && offset <= declared.end {
            return Ok(declared.start);
        }
    }
    Ok(offset)
}

// Adds the local of a type that a file declares at an offset.
fn add_local(
    session: &Session,
    kinds: &mut Kinds,
    snapshot: &Snapshot,
    file: FileIn<'_>,
    offset: usize,
    term: &TypeTerm,
) -> Result<(), AllocError> {
    let detail = type_text(session, snapshot, file.part.path(), term)?;
    let known = Known {
        kind: VARIABLE,
        detail,
    };
    let name = token_at(file.source.text(), offset);
    let name = String::from_str(session.alloc, name)?;
    add_known(kinds, name, known)
}

// Adds the locals that a function declares before an offset.
fn add_locals(
    session: &Session,
    kinds: &mut Kinds,
    snapshot: &Snapshot,
    file: FileIn<'_>,
    offset: usize,
) -> Result<(), AllocError> {
    let start = declaration_start(session, file.tree, offset)?;
    let made = file.made;
    for local in &made.answers.locals {
        if start <= local.offset && local.offset < offset {
            if let Some(term) = typed(local.value()) {
                add_local(session, kinds, snapshot, file, local.offset, term)?;
            }
        }
    }
    Ok(())
}

// Adds what is known of names behind a dot whose qualifier ends before an offset, where that is a package.
fn add_behind_dot(
    session: &Session,
    kinds: &mut Kinds,
    snapshot: &Snapshot,
    at: &AskedPlace,
    offset: usize,
) -> Result<(), AllocError> {
    let Some(end) = offset.checked_sub(1) else {
        return Ok(());
    };
    match define(
        session.alloc,
        snapshot,
        &at.file.package,
        at.file.name.as_str(),
        end,
    ) {
        Ok(site) => match site.decl().site() {
            DeclSite::Package(path) => add_package(session, kinds, snapshot, path),
            _ => Ok(()),
        },
        Err(Rule::M0) => Err(AllocError),
        Err(_) => Ok(()),
    }
}

/// Adds what is known of the names that may stand at a half name of a file of a snapshot: behind the name of a package what that declares, and of a bare name
/// what its own package and the function around it declare.
///
/// # Errors
///
/// `AllocError` where memory is wanting.
pub(crate) fn add_kinds(
    session: &Session,
    kinds: &mut Kinds,
    snapshot: &Snapshot,
    at: &AskedPlace,
    half: HalfName,
) -> Result<(), AllocError> {
    if half.is_behind_dot {
        return add_behind_dot(session, kinds, snapshot, at, half.start.saturating_sub(1));
    }
    add_package(session, kinds, snapshot, &at.file.package)?;
    match snapshot.file(&at.file.package, at.file.name.as_str()) {
        Some(file) => add_locals(session, kinds, snapshot, file, half.start),
        None => Ok(()),
    }
}
