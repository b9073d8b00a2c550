//! Types as they are written.

use go_path_core::ImportPath;
use go_snap_core::Snapshot;
use go_term_core::decl_core::DeclKey;
use go_term_core::{Basic, MemberPlace, TypeTerm};
use govisd_documents::{Session, name_end, place_of, text_between};
use std::alloc::{AllocError, Global};

/// How many pointers of a type are written; what lies behind more is three dots.
const DEPTH: usize = 7;

// Adds the name of a defined type, with that of its package where it is another one.
fn add_defined(
    alloc: Global,
    snapshot: &Snapshot,
    text: &mut String,
    own: &ImportPath,
    key: &DeclKey,
) -> Result<(), AllocError> {
    let place = MemberPlace::Declared(key.decl);
    let Some(at) = place_of(alloc, snapshot, &key.path, place)? else {
        return text.push_str("?");
    };
    if !key.path.is_same(own) {
        if let Some(part) = snapshot.part(&key.path) {
            text.push_str(part.input().package().name())?;
            text.push_str(".")?;
        }
    }
    let source = at.source.text();
    let end = name_end(source.as_bytes(), at.offset);
    text.push_str(text_between(source, at.offset, end))
}

// What a pointer type points to.
fn pointed_to(term: &TypeTerm) -> Option<&TypeTerm> {
    match term {
        TypeTerm::Pointer(inner) => Some(inner),
        _ => None,
    }
}

// Adds a type that is no pointer type.
fn add_bare(
    alloc: Global,
    snapshot: &Snapshot,
    text: &mut String,
    own: &ImportPath,
    term: &TypeTerm,
) -> Result<(), AllocError> {
    match term {
        TypeTerm::NoType => text.push_str("?"),
        TypeTerm::Basic(Basic::Bool) => text.push_str("bool"),
        TypeTerm::Basic(Basic::Int) => text.push_str("int"),
        TypeTerm::Basic(Basic::Text) => text.push_str("string"),
        TypeTerm::Error => text.push_str("error"),
        TypeTerm::Defined(key) => add_defined(alloc, snapshot, text, own, key),
        TypeTerm::Pointer(_) => text.push_str("..."),
        TypeTerm::Struct(_, _, _) => text.push_str("struct{...}"),
        TypeTerm::Interface(_, _) => text.push_str("interface{...}"),
    }
}

/// A type as a package writes it; what is written out of a struct or an interface is three dots.
///
/// # Errors
///
/// `AllocError` where memory is wanting.
pub(crate) fn type_text(
    session: &Session,
    snapshot: &Snapshot,
    own: &ImportPath,
    term: &TypeTerm,
) -> Result<String, AllocError> {
    let mut text = String::new(session.alloc);
    let mut rest = term;
    for _level in 0..DEPTH {
        match pointed_to(rest) {
            Some(inner) => {
                text.push_str("*")?;
                rest = inner;
            }
            None => break,
        }
    }
    add_bare(session.alloc, snapshot, &mut text, own, rest)?;
    Ok(text)
}
