//! Texts that are tried: nobody else sees what comes of them.

use crate::edits::with_file;
use crate::ranges::AskedPlace;
use crate::session::{FileName, Session};
use go_edit_core::recompile_edit;
use go_snap_core::{Recompiled, Snapshot};
use std::alloc::AllocError;

/// The snapshot of the packages with a text in the place of that of a file.
///
/// # Errors
///
/// `AllocError` where memory is wanting.
pub fn tried(session: &Session, file: &FileName, text: String) -> Result<Snapshot, AllocError> {
    let workspace = with_file(session, file, text)?;
    let Recompiled { snapshot, kept: _ } = recompile_edit(
        session.alloc,
        &workspace,
        &session.snapshot,
    )?;
    Ok(snapshot)
}

/// The text of an open file as the editor shows it.
pub fn shown_text<'s>(session: &'s Session, at: &AskedPlace) -> Option<&'s str> {
    match session.documents.get(at.path.as_str()) {
        Some(document) => Some(document.text.as_str()),
        None => None,
    }
}
