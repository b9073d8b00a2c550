//! Edits of parts of a text, all at once.
ghost use Rattle.std.specs.Prelude.{◌≡◌, ◌≤◌, ◌⊎◌, ◌↔◌, ◌++◌, IfErr, IfOk, IsCharBoundary, IsTrue, OnOk, map, slice_range, string_bytes};
ghost use Rattle.go_lsp_core.specs.edits.Edits.{Fits, Stand, edited, part_of};

use std::alloc::{AllocError, Global};

/// A part of a text, and what is to stand in its place. Offsets count bytes from the start of the text.
#[derive(Clone, Copy)]
pub struct Edit<'a> {
    /// The offset of the first byte of the part.
    pub start: usize,
    /// The offset of the first byte after the part.
    pub end: usize,
    /// What stands in its place.
    pub new: &'a str,
}

/// Why a text is not edited.
#[derive(Clone, Copy, Debug, PartialEq, Eq)]
pub enum EditFault {
    /// The edits are no parts of the text, one after another: one ends before it starts or after the text, cuts a character, or starts before the one in front
    /// of it ends.
    Misplaced,
    /// Memory is wanting.
    Memory,
}

// Whether the part of an edit is one of the text that starts at an offset or after it.
fn fits(text: &str, from: usize, edit: Edit<'_>) -> bool
    ensures { IsTrue result ↔ Fits text.now from (part_of edit.entry) }
{
    if edit.start < from {
        return false;
    }
    if edit.end < edit.start {
        return false;
    }
    if !text.is_char_boundary(edit.start) {
        return false;
    }
    text.is_char_boundary(edit.end)
}

// Whether the parts of edits are parts of the text, one after another.
fn stand(text: &str, edits: &[Edit<'_>]) -> bool
    ensures { IsTrue result ↔ Stand text.now 0 (map part_of edits.now) }
{
    let mut from = 0;
    for edit in edits {
        if !fits(text, from, *edit) {
            return false;
        }
        from = edit.end;
    }
    true
}

// Adds what stands between two offsets of a text, and then another text.
fn put(all: &mut String, text: &str, from: usize, to: usize, new: &str) -> Result<(), AllocError>
    requires from { IsCharBoundary text.now from }
    requires to { IsCharBoundary text.now to }
    requires order { from ≤ to }
    ensures { OnOk result (string_bytes all.new ≡ (string_bytes all.old ++ slice_range text.now from to) ++ new.now) }
{
    all.push_str(&text[from..to])?;
    all.push_str(new)?;
    Ok(())
}

// The text after edits whose parts are parts of it, one after another.
fn spliced(alloc: Global, text: &str, edits: &[Edit<'_>]) -> Result<String, AllocError>
    requires { Stand text.now 0 (map part_of edits.now) }
    ensures { IfOk result (λ s. string_bytes s ≡ edited text.now (map part_of edits.now)) }
{
    let mut all = String::new(alloc);
    let mut from = 0;
    for edit in edits {
        put(&mut all, text, from, edit.start, edit.new)?;
        from = edit.end;
    }
    all.push_str(&text[from..])?;
    Ok(all)
}

/// The text after edits, all of them at once: the parts are those of the text as it is given, and stand in order. It takes one walk over the edits and one over
/// the text.
///
/// # Errors
///
/// - [`EditFault::Misplaced`] exactly where the parts are no parts of the text, one after another.
/// - [`EditFault::Memory`] where memory is wanting.
pub fn apply_edits(alloc: Global, text: &str, edits: &[Edit<'_>]) -> Result<String, EditFault>
    ensures ok { IfOk result (λ s. Stand text.now 0 (map part_of edits.now) × (string_bytes s ≡ edited text.now (map part_of edits.now))) }
    ensures err { IfErr result (λ fault. (fault ≡ EditFault.Memory) ⊎ ((fault ≡ EditFault.Misplaced) × ¬ Stand text.now 0 (map part_of edits.now))) }
{
    if !stand(text, edits) {
        return Err(EditFault::Misplaced);
    }
    match spliced(alloc, text, edits) {
        Ok(text) => Ok(text),
        Err(AllocError) => Err(EditFault::Memory),
    }
}
