//! Whether texts are those in which a name is replaced.
ghost use Rattle.std.specs.Prelude.{◌≡◌, ◌↔◌, ◌+◌, ◌≤◌, ◌^◌, IfOk, IsTrue, MatchOption, false, map};
ghost use Rattle.go_lsp_core.specs.edits.Edits.{Stand, edited, part, part_of};
ghost use Rattle.go_reference_core.specs.rename.Moving.{AllPaired, moves_of};
ghost use Rattle.go_reference_core.specs.rename.Renaming.{AreRenamed, HasNoEnd, IsRenamedFile, IsRenamedPackage, IsRenamedText, name_parts};

use crate::rename::comparing::has_same_path;
use crate::rename::names::{Names, offsets_in};
use go_graph_core::{PackageSource, SourceFile};
use go_lsp_core::edits::{Edit, EditFault, apply_edits};
use std::alloc::{AllocError, Global};

// Whether two texts are the same.
fn is_same_text(one: &str, other: &str) -> bool
    ensures { IsTrue result ↔ (one.now ≡ other.now) }
{
    one == other
}

// The edit that replaces a name of so many bytes at an offset; none where it ends at 2^64 or after it.
fn edit_at<'a>(at: usize, len: usize, new: &'a str) -> Option<Edit<'a>>
    ensures { MatchOption result (2 ^ 64 ≤ at + len) (λ edit. part_of edit ≡ part at (at + len) new.now) }
{
    let end = at.checked_add(len)?;
    Some(Edit {
        start: at,
        end,
        new,
    })
}

// The edits that replace a name of so many bytes at these offsets; none where one ends at 2^64 or after it.
fn edits_at<'a>(
    alloc: Global,
    offsets: &[usize],
    len: usize,
    new: &'a str,
) -> Result<Option<Vec<Edit<'a>>>, AllocError>
    ensures { IfOk result (λ made. MatchOption made (HasNoEnd len offsets.now) (λ edits. map part_of edits.items ≡ name_parts len new.now offsets.now)) }
{
    let mut edits = Vec::new(alloc);
    for at in offsets {
        match edit_at(*at, len, new) {
            Some(edit) => edits.push(edit)?,
            None => return Ok(None),
        }
    }
    Ok(Some(edits))
}

// Whether a text is the one after edits.
fn is_edited(alloc: Global, text: &str, edits: &[Edit<'_>], other: &str) -> Result<bool, AllocError>
    ensures { IfOk result (λ b. IsTrue b ↔ (Stand text.now 0 (map part_of edits.now) × (other.now ≡ edited text.now (map part_of edits.now)))) }
{
    match apply_edits(alloc, text, edits) {
        Ok(made) => Ok(is_same_text(made.as_str(), other)),
        Err(fault) => not_edited(fault),
    }
}

// A text is none that is edited where edits are misplaced.
fn not_edited(fault: EditFault) -> Result<bool, AllocError>
    ensures { IfOk result (λ b. (b ≡ false) × (fault ≡ EditFault.Misplaced)) }
{
    match fault {
        EditFault::Misplaced => Ok(false),
        EditFault::Memory => Err(AllocError),
    }
}

// Whether a text is another one in which a name of so many bytes is replaced at these offsets.
fn is_renamed_text(
    alloc: Global,
    text: &str,
    offsets: &[usize],
    len: usize,
    new: &str,
    other: &str,
) -> Result<bool, AllocError>
    ensures { IfOk result (λ b. IsTrue b ↔ IsRenamedText text.now (name_parts len new.now offsets.now) other.now) }
{
    let made = edits_at(alloc, offsets, len, new)?;
    match made {
        Some(edits) => is_edited(alloc, text, &edits, other),
        None => Ok(false),
    }
}

// Whether files have one name.
fn has_same_name(own: &SourceFile, its: &SourceFile) -> bool
    ensures { IsTrue result ↔ (its.now.name ≡ own.now.name) }
{
    let name = own.name();
    is_same_text(its.name(), name)
}

// Whether a file is the one of two numbers in which names are replaced.
fn is_renamed_file(
    alloc: Global,
    names: &Names,
    new: &str,
    package: usize,
    file: usize,
    own: &SourceFile,
    its: &SourceFile,
) -> Result<bool, AllocError>
    ensures { IfOk result (λ b. IsTrue b ↔ IsRenamedFile (moves_of names.now) new.now «package» file own.now its.now) }
{
    if !has_same_name(own, its) {
        return Ok(false);
    }
    let offsets = offsets_in(names, package, file);
    let had = own.text();
    let has = its.text();
    is_renamed_text(alloc, had, offsets, names.old, new, has)
}

// Whether files are those of the package of a number in which names are replaced.
fn are_renamed_files(
    alloc: Global,
    names: &Names,
    new: &str,
    package: usize,
    own: &[SourceFile],
    its: &[SourceFile],
) -> Result<bool, AllocError>
    ensures { IfOk result (λ b. IsTrue b ↔ AllPaired (IsRenamedFile (moves_of names.now) new.now «package») own.now its.now) }
{
    if its.len() != own.len() {
        return Ok(false);
    }
    for file in 0..own.len() {
        let is = is_renamed_file(alloc, names, new, package, file, &own[file], &its[file])?;
        if !is {
            return Ok(false);
        }
    }
    Ok(true)
}

// Whether a package is the one of a number in which names are replaced.
fn is_renamed_package(
    alloc: Global,
    names: &Names,
    new: &str,
    package: usize,
    own: &PackageSource,
    its: &PackageSource,
) -> Result<bool, AllocError>
    ensures { IfOk result (λ b. IsTrue b ↔ IsRenamedPackage (moves_of names.now) new.now «package» own.now its.now) }
{
    if !has_same_path(own, its) {
        return Ok(false);
    }
    let had = own.files();
    let has = its.files();
    are_renamed_files(alloc, names, new, package, had, has)
}

/// Whether packages are others in which names are replaced, and nothing else: paths, names of files and texts. The time is linear in the texts.
///
/// # Errors
///
/// `AllocError` where memory is wanting.
pub fn are_renamed(
    alloc: Global,
    names: &Names,
    new: &str,
    old: &[PackageSource],
    renamed: &[PackageSource],
) -> Result<bool, AllocError>
    ensures { IfOk result (λ b. IsTrue b ↔ AreRenamed (moves_of names.now) new.now old.now renamed.now) }
{
    if renamed.len() != old.len() {
        return Ok(false);
    }
    for package in 0..old.len() {
        let own = &old[package];
        let its = &renamed[package];
        let is = is_renamed_package(alloc, names, new, package, own, its)?;
        if !is {
            return Ok(false);
        }
    }
    Ok(true)
}
