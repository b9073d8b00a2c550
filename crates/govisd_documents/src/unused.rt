//! Variables of functions that nothing uses.

use crate::targets::site_of;
use crate::words::{is_name_byte, name_end, text_between, token_at};
use go_handle_core::DeclSite;
use go_report_core::answer::Answer;
use go_snap_core::FileIn;
use go_term_core::MemberPlace;
use std::alloc::{AllocError, Global};
use std::collections::BTreeSet;

/// For how many names `:=` is looked for behind them.
const NAMES: usize = 16;

// What stands behind the name at an offset of a text, without the blanks before it.
fn behind_name(text: &str, offset: usize) -> &str {
    let end = name_end(text.as_bytes(), offset);
    text_between(text, end, text.len()).trim_ascii_start()
}

// What stands before an offset of a text, without the blanks behind it.
fn before(text: &str, offset: usize) -> &str {
    text_between(text, 0, offset).trim_ascii_end()
}

// Whether the names of a short declaration go on here up to its `:=`.
fn is_short(behind: &str) -> bool {
    let mut rest = behind;
    for _name in 0..NAMES {
        if rest.starts_with(":=") {
            return true;
        }
        match rest.strip_prefix(',') {
            Some(more) => rest = behind_name(more.trim_ascii_start(), 0),
            None => return false,
        }
    }
    false
}

// Whether a text ends with the word `var`.
fn ends_with_var(front: &str) -> bool {
    match front.strip_suffix("var") {
        Some(rest) => match rest.as_bytes().last() {
            Some(byte) => !is_name_byte(*byte),
            None => true,
        },
        None => false,
    }
}

// Whether the local at an offset is a variable of a body: no parameter, no result and no constant.
fn is_variable(text: &str, offset: usize) -> bool {
    is_short(behind_name(text, offset)) || ends_with_var(before(text, offset))
}

// Whether the name at an offset is given a value there, and not used.
fn is_set(text: &str, offset: usize) -> bool {
    let behind = behind_name(text, offset);
    let is_given = behind.starts_with('=') && !behind.starts_with("==");
    (is_given || is_short(behind)) && !before(text, offset).ends_with('*')
}

// The offset of the local of the file of a number that an occurrence denotes.
fn local_of(answer: &Answer, file: usize) -> Option<usize> {
    match site_of(answer) {
        Some(DeclSite::InFile(_, MemberPlace::Local(place))) => {
            if place.file == file {
                Some(place.offset)
            } else {
                None
            }
        }
        _ => None,
    }
}

/// What a file uses.
#[derive(Drop)]
struct Uses<'t> {
    /// The offsets of its locals that are used.
    locals: BTreeSet<usize>,
    /// The names that are used and denote nothing.
    refused: BTreeSet<&'t str>,
}

// Adds a value to a set.
fn keep<T: Ord + Drop>(set: &mut BTreeSet<T>, value: T) -> Result<(), AllocError> {
    match set.insert(value) {
        Ok(_) => Ok(()),
        Err(_) => Err(AllocError),
    }
}

// Takes account of an occurrence in the file of a number.
fn note_use<'t>(
    uses: &mut Uses<'t>,
    text: &'t str,
    file: usize,
    answer: &Answer,
) -> Result<(), AllocError> {
    let offset = answer.offset;
    match local_of(answer, file) {
        Some(_) if is_set(text, offset) => Ok(()),
        Some(local) => keep(&mut uses.locals, local),
        None if site_of(answer).is_none() => keep(&mut uses.refused, token_at(text, offset)),
        None => Ok(()),
    }
}

// What a file uses.
fn uses_in<'s>(alloc: Global, file: FileIn<'s>) -> Result<Uses<'s>, AllocError> {
    let mut uses = Uses {
        locals: BTreeSet::new(alloc),
        refused: BTreeSet::new(alloc),
    };
    let text = file.source.text();
    let made = file.made;
    for answer in &made.answers.answers {
        note_use(&mut uses, text, file.number, answer)?;
    }
    Ok(uses)
}

/// The offsets of the variables of a file's functions that nothing uses, in order: `go build` refuses such. What is declared by a list of `var`, and what has
/// the name of something that denotes nothing, is passed over.
///
/// # Errors
///
/// `AllocError` where memory is wanting.
pub fn unused_variables(alloc: Global, file: FileIn<'_>) -> Result<Vec<usize>, AllocError> {
    let uses = uses_in(alloc, file)?;
    let text = file.source.text();
    let made = file.made;
    let mut unused = Vec::new(alloc);
    for local in &made.answers.locals {
        let offset = local.offset;
        let is_used = uses.locals.contains(&offset)
            || uses.refused.contains(token_at(text, offset));
        if !is_used && is_variable(text, offset) {
            unused.push(offset)?;
        }
    }
    Ok(unused)
}
