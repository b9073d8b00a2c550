//! What more is said of a completion that the editor shows.

use crate::forms::{Form, formed, half_name};
use crate::hovering::{Telling, said_of};
use go_path_core::text_core::Rule;
use go_reference_core::query_core::define;
use govisd_documents::{AskedPlace, Session, asked_place, shown_text, tried};
use govisd_protocol::{count_at, text_at};
use serde_json::{Map, Value};
use std::alloc::{AllocError, Global};

// What is said of a name at a half-written place, written whole in a form.
fn said_of_name(
    session: &Session,
    at: &AskedPlace,
    text: &str,
    name: &str,
    form: Form,
) -> Result<Option<Telling>, AllocError> {
    let half = half_name(text, at.offset);
    let Some(text) = formed(session.alloc, text, half, name, form)? else {
        return Ok(None);
    };
    let snapshot = tried(session, &at.file, text)?;
    match define(
        session.alloc,
        &snapshot,
        &at.file.package,
        at.file.name.as_str(),
        half.start,
    ) {
        Ok(site) => Ok(Some(said_of(session, &snapshot, site.decl().site())?)),
        Err(Rule::M0) => Err(AllocError),
        Err(_) => Ok(None),
    }
}

// What is said of the name of an item.
fn said_of_item(session: &Session, item: &Value) -> Result<Option<Telling>, AllocError> {
    let Some(data) = item.get("data") else {
        return Ok(None);
    };
    let Some(name) = text_at(item, "/label") else {
        return Ok(None);
    };
    let Some(at) = asked_place(session, data)? else {
        return Ok(None);
    };
    let Some(text) = shown_text(session, &at) else {
        return Ok(None);
    };
    let form = Form::of_number(count_at(data, "/form").unwrap_or(0));
    said_of_name(session, &at, text, name, form)
}

// Sets a member of an item to a text.
fn set(
    alloc: Global,
    members: &mut Map<String, Value>,
    name: &str,
    text: &str,
) -> Result<(), AllocError> {
    let value = String::from_str(alloc, text)?;
    let name = String::from_str(alloc, name)?;
    match members.insert(name, Value::String(value)) {
        Ok(_) => Ok(()),
        Err(_) => Err(AllocError),
    }
}

// Sets the members of an item that say how its name is declared, and its doc comment.
fn add_members(
    alloc: Global,
    members: &mut Map<String, Value>,
    said: &Telling,
) -> Result<(), AllocError> {
    set(alloc, members, "detail", said.head.as_str())?;
    if said.comment.is_empty() {
        return Ok(());
    }
    set(alloc, members, "documentation", said.comment.as_str())
}

// Sets what is said of an item.
fn add_said(alloc: Global, item: &mut Value, said: &Telling) -> Result<(), AllocError> {
    if let Some(members) = item.as_object_mut() {
        add_members(alloc, members, said)?;
    }
    Ok(())
}

/// A completion with how its name is declared and its doc comment, as far as they are found.
///
/// # Errors
///
/// `AllocError` where memory is wanting.
pub fn resolved(session: &Session, item: &Value) -> Result<Value, AllocError> {
    let mut told = item.clone()?;
    if let Some(said) = said_of_item(session, item)? {
        add_said(session.alloc, &mut told, &said)?;
    }
    Ok(told)
}
