//! Changes of a text, one after another.
ghost use Rattle.std.specs.Prelude.{◌≡◌, IfOk, string_bytes};
ghost use Rattle.go_lsp_core.specs.edits.Changes.{changed};

use crate::positions::{Encoding, Range, apply};
use std::alloc::{AllocError, Global};

/// A change of a text, as an editor tells it.
#[derive(Clone, Copy)]
pub struct Change<'a> {
    /// The part of the text that is replaced; none where all of it is.
    pub range: Option<Range>,
    /// What stands in its place.
    pub new: &'a str,
}

/// The text after changes, each of them in the text that those before it made.
///
/// # Errors
///
/// `AllocError` where memory is wanting.
pub fn apply_changes(
    alloc: Global,
    text: &str,
    encoding: Encoding,
    changes: &[Change<'_>],
) -> Result<String, AllocError>
    ensures { IfOk result (λ s. string_bytes s ≡ changed encoding text.now changes.now) }
{
    let mut current = String::from_str(alloc, text)?;
    for change in changes {
        let next = apply(alloc, current.as_str(), encoding, change.range, change.new)?;
        current = next;
    }
    Ok(current)
}
