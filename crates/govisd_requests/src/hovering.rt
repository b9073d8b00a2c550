//! What is said of what stands at a place.
ghost use Rattle.std.specs.Prelude.{All, IfOk, length};
ghost use Rattle.go_scan_core.specs.Texts.{CommentHasItsText};
ghost use Rattle.go_scan_core.specs.Tokens.{CommentsInOrder};

use crate::symbols::{declared_names, name_at};
use crate::written::type_text;
use go_doc_core::doc_comment;
use go_graph_core::SourceFile;
use go_handle_core::DeclSite;
use go_operand_core::{Operand, ValueType};
use go_path_core::ImportPath;
use go_reference_core::outline::Entry;
use go_scan_core::comments;
use go_snap_core::{FileIn, Snapshot};
use go_term_core::decl_core::DeclKind;
use go_term_core::{MemberPlace, TypeTerm};
use go_tree_nodes::token_core::{Comment, ScanError};
use govisd_documents::{
    AskedPlace, FilePlace, Session, place_of, target_at, text_between, token_at,
};
use serde_json::{Value, json};
use std::alloc::{AllocError, Global};

/// What is said of a declaration: how it is written, and its doc comment.
#[derive(Drop)]
pub(crate) struct Telling {
    pub head: String,
    pub comment: String,
}

// What is said of a declaration without a doc comment.
fn said_bare(alloc: Global, head: &str) -> Result<Telling, AllocError> {
    Ok(Telling {
        head: String::from_str(alloc, head)?,
        comment: String::new(alloc),
    })
}

// The declared name that begins at an offset, or in whose declaration the offset lies.
fn name_over<'n, 't>(names: &'n [Entry<'t>], offset: usize) -> Option<&'n Entry<'t>> {
    for name in names {
        if name_at(name) == offset {
            return Some(name);
        }
    }
    for name in names {
        if name.start <= offset && offset < name.end {
            return Some(name);
        }
    }
    None
}

// The line of a text that an offset lies in, without the blanks at its ends.
fn line_of(text: &str, offset: usize) -> &str {
    let Some((front, back)) = text.split_at_checked(offset) else {
        return "";
    };
    let start = match front.rfind('\n') {
        Some(at) => at.saturating_add(1),
        None => 0,
    };
    let end = match back.find('\n') {
        Some(at) => offset.saturating_add(at),
        None => text.len(),
    };
    text_between(text, start, end).trim_ascii()
}

// The comments of a text; none where it has a fault.
fn comments_of(alloc: Global, text: &str) -> Result<Vec<Comment>, AllocError>
    ensures order { IfOk result (λ found. CommentsInOrder 0 found.items (length text.now)) }
    ensures texts { IfOk result (λ found. All (CommentHasItsText text.now) found.items) }
{
    match comments(alloc, text) {
        Ok(found) => Ok(found),
        Err(ScanError::Fault(_)) => Ok(Vec::new(alloc)),
        Err(ScanError::Memory) => Err(AllocError),
    }
}

// The doc comment of what stands at an offset of a text.
fn comment_at(alloc: Global, text: &str, at: usize) -> Result<String, AllocError> {
    let found = comments_of(alloc, text)?;
    String::from_str(alloc, doc_comment(text, &found, at, 0))
}

// What is said of what is declared at an offset of a file outside functions.
fn declared_text(
    session: &Session,
    source: &SourceFile,
    offset: usize,
) -> Result<Telling, AllocError> {
    let alloc = session.alloc;
    let text = source.text();
    let Ok(tree) = source.tree() else {
        return said_bare(alloc, "");
    };
    let names = declared_names(session, tree)?;
    let Some(name) = name_over(&names, offset) else {
        return said_bare(alloc, "");
    };
    if name_at(name) == offset {
        let head = text_between(text, name.start, name.head_end).trim_ascii();
        return Ok(Telling {
            head: String::from_str(alloc, head)?,
            comment: comment_at(alloc, text, name.start)?,
        });
    }
    Ok(Telling {
        head: String::from_str(alloc, line_of(text, offset))?,
        comment: comment_at(alloc, text, offset)?,
    })
}

/// The type of a value, if it has one.
pub(crate) fn typed(value: &Option<Operand<TypeTerm>>) -> Option<&TypeTerm> {
    match value {
        Some(operand) => match &operand.value_type {
            ValueType::Typed(term) => Some(term),
            _ => None,
        },
        None => None,
    }
}

// The type of the local that a file declares at an offset, if it has one.
fn local_type<'s>(file: FileIn<'s>, offset: usize) -> Option<&'s TypeTerm> {
    let made = file.made;
    for local in &made.answers.locals {
        if local.offset == offset {
            return typed(local.value());
        }
    }
    None
}

// The type of a local of a file, as it is written.
fn local_text(
    session: &Session,
    snapshot: &Snapshot,
    file: FileIn<'_>,
    offset: usize,
) -> Result<Option<String>, AllocError> {
    match local_type(file, offset) {
        Some(term) => Ok(Some(type_text(session, snapshot, file.part.path(), term)?)),
        None => Ok(None),
    }
}

// The type of the local that is declared at a place, as it is written.
fn local_at(
    session: &Session,
    snapshot: &Snapshot,
    at: FilePlace<'_>,
) -> Result<Option<String>, AllocError> {
    match snapshot.file(at.package, at.source.name()) {
        Some(file) => local_text(session, snapshot, file, at.offset),
        None => Ok(None),
    }
}

// What is said of a local of a type.
fn said_of_local(alloc: Global, at: FilePlace<'_>, written: &str) -> Result<Telling, AllocError> {
    let mut head = String::from_str(alloc, "var ")?;
    head.push_str(token_at(at.source.text(), at.offset))?;
    head.push_str(" ")?;
    head.push_str(written)?;
    Ok(Telling {
        head,
        comment: String::new(alloc),
    })
}

// What is said of an identifier that is declared at a place of a package and is no local that has a type.
fn said_of_declared(
    session: &Session,
    at: FilePlace<'_>,
    place: MemberPlace,
) -> Result<Telling, AllocError> {
    match place {
        MemberPlace::Declared(decl) if decl.kind != DeclKind::Param => {
            declared_text(session, at.source, at.offset)
        }
        _ => said_bare(session.alloc, line_of(at.source.text(), at.offset)),
    }
}

// What is said of an identifier that is declared at a place of a package.
fn said_of_place(
    session: &Session,
    snapshot: &Snapshot,
    at: FilePlace<'_>,
    place: MemberPlace,
) -> Result<Telling, AllocError> {
    match local_at(session, snapshot, at)? {
        Some(text) => said_of_local(session.alloc, at, text.as_str()),
        None => said_of_declared(session, at, place),
    }
}

// What is said of a package.
fn said_of_package(session: &Session, path: &ImportPath) -> Result<Telling, AllocError> {
    let alloc = session.alloc;
    let path = path.as_str();
    Ok(Telling {
        head: format!(in alloc; "package \"{path}\"")?,
        comment: String::new(alloc),
    })
}

// What is said of a predeclared name.
fn said_of_universe(session: &Session, name: &str) -> Result<Telling, AllocError> {
    let alloc = session.alloc;
    Ok(Telling {
        head: format!(in alloc; "universe {name}")?,
        comment: String::new(alloc),
    })
}

/// What is said of a declaration of a snapshot.
///
/// # Errors
///
/// `AllocError` where memory is wanting.
pub(crate) fn said_of(
    session: &Session,
    snapshot: &Snapshot,
    site: DeclSite<'_>,
) -> Result<Telling, AllocError> {
    let alloc = session.alloc;
    match site {
        DeclSite::Universe(name) => said_of_universe(session, name.spelling()),
        DeclSite::ErrorMethod => said_bare(alloc, "func (error) Error() string"),
        DeclSite::Package(path) => said_of_package(session, path),
        DeclSite::InFile(path, place) => match place_of(alloc, snapshot, path, place)? {
            Some(at) => said_of_place(session, snapshot, at, place),
            None => said_bare(alloc, ""),
        },
    }
}

/// The head of a declaration of a snapshot.
///
/// # Errors
///
/// `AllocError` where memory is wanting.
pub(crate) fn head_of(
    session: &Session,
    snapshot: &Snapshot,
    site: DeclSite<'_>,
) -> Result<String, AllocError> {
    let Telling { head, comment: _ } = said_of(session, snapshot, site)?;
    Ok(head)
}

// The path of the package of a declaration.
fn package_of<'s>(site: DeclSite<'s>) -> Option<&'s str> {
    match site {
        DeclSite::InFile(path, _) => Some(path.as_str()),
        _ => None,
    }
}

// How many bytes the longest run of a byte has.
fn longest_run(bytes: &[u8], byte: u8) -> usize {
    let mut most: usize = 0;
    let mut run: usize = 0;
    for other in bytes {
        if *other == byte {
            run = run.saturating_add(1);
            most = most.max(run);
        } else {
            run = 0;
        }
    }
    most
}

// Adds so many backticks.
fn add_backticks(text: &mut String, count: usize) -> Result<(), AllocError> {
    for _number in 0..count {
        text.push_str("`")?;
    }
    Ok(())
}

// Adds a block of Go to a text in Markdown. Its fence is longer than each run of backticks in it.
fn add_block(text: &mut String, code: &str) -> Result<(), AllocError> {
    let count = longest_run(code.as_bytes(), b'`').saturating_add(1).max(3);
    add_backticks(text, count)?;
    text.push_str("go\n")?;
    text.push_str(code)?;
    text.push_str("\n")?;
    add_backticks(text, count)
}

// What is said of a declaration in Markdown: its head, the doc comment, and the path of its package.
fn hover_text(alloc: Global, said: &Telling, package: Option<&str>) -> Result<String, AllocError> {
    let mut text = String::new(alloc);
    add_block(&mut text, said.head.as_str())?;
    if !said.comment.is_empty() {
        text.push_str("\n\n")?;
        add_block(&mut text, said.comment.as_str())?;
    }
    if let Some(path) = package {
        text.push_str("\n\n")?;
        text.push_str(path)?;
    }
    Ok(text)
}

// What is said of a declaration as a value.
fn hover_of(session: &Session, site: DeclSite<'_>) -> Result<Value, AllocError> {
    let alloc = session.alloc;
    let said = said_of(session, &session.snapshot, site)?;
    let told = hover_text(alloc, &said, package_of(site))?;
    let text = told.as_str();
    json!(in alloc; {"contents": {"kind": "markdown", "value": text}})
}

/// What is said of what stands at a place: how it is declared, its doc comment, and the path of its package. Null where nothing stands there.
///
/// # Errors
///
/// `AllocError` where memory is wanting.
pub fn hover(session: &Session, at: &AskedPlace) -> Result<Value, AllocError> {
    match target_at(session, &at.file, at.on)? {
        Some(site) => hover_of(session, site),
        None => Ok(Value::Null),
    }
}
