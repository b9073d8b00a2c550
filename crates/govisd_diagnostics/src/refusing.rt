//! Why a name is not renamed.

use go_diagnostic_core::snap_core::{PlacedFault, Snapshot};
use go_explain_core::meaning;
use go_graph_core::SourceFile;
use go_path_core::ImportPath;
use go_path_core::text_core::Rule;
use go_reference_core::rename::{Change, Names};
use govisd_documents::{Session, number_of, source_of, token_at};
use govisd_protocol::{ErrorCode, Refusal, refuse_with};
use std::alloc::AllocError;

// The offsets at which the name stands in the file of two numbers, in order.
fn offsets_in(names: &Names, package: usize, file: usize) -> &[usize] {
    let Some(files) = names.offsets.get(package) else {
        return &[];
    };
    match files.get(file) {
        Some(offsets) => offsets.as_slice(),
        None => &[],
    }
}

// Where what stands at an offset of a renamed text stands in the text as it is: at the start of the name, where that offset lies in the new one.
fn offset_before(names: &Names, offsets: &[usize], offset: usize) -> usize {
    let mut before = offset;
    for own in offsets {
        if before <= *own {
            return before;
        }
        before = if before < own.saturating_add(names.new) {
            *own
        } else {
            before.saturating_sub(names.new).saturating_add(names.old)
        };
    }
    before
}

// Where a fault of the renamed texts stands in the texts as they are.
fn place_before(names: &Names, fault: PlacedFault) -> Change {
    let own = offsets_in(names, fault.package, fault.file);
    Change {
        package: fault.package,
        file: fault.file,
        offset: offset_before(names, own, fault.offset),
    }
}

// Whether a place is that of a fault.
fn is_at(fault: PlacedFault, at: Change) -> bool {
    fault.package == at.package && fault.file == at.file && fault.offset == at.offset
}

// Whether one of these faults is of a rule and stands at a place.
fn has_fault(faults: &[PlacedFault], rule: Rule, at: Change) -> bool {
    for fault in faults {
        if is_at(*fault, at) && fault.rule == rule {
            return true;
        }
    }
    false
}

// Whether a rule is one of names that are declared in one block.
fn is_of_blocks(rule: Rule) -> bool {
    matches!(rule.number().as_bytes().first(), Some(b'B'))
}

// The first fault of a name that is declared again which a renaming brings, with its place in the texts as they are; none where it brings none such.
fn second_name(session: &Session, names: &Names, after: &Snapshot) -> Option<(Rule, Change)> {
    for fault in after.faults() {
        if is_of_blocks(fault.rule) {
            let at = place_before(names, *fault);
            if !has_fault(session.snapshot.faults(), fault.rule, at) {
                return Some((fault.rule, at));
            }
        }
    }
    None
}

// A place as a person reads it: the path of its file below the folder of the workspace, its line and its column.
fn shown_place(
    session: &Session,
    path: &ImportPath,
    source: &SourceFile,
    offset: usize,
) -> Result<String, AllocError> {
    let file = session.file_path(path.as_str(), source.name())?;
    let place = go_folder_core::position_of(source.text(), offset);
    let (name, line, column) = (file.as_str(), place.line, place.column);
    format!(in session.alloc; "{name}:{line}:{column}")
}

// A place as a person reads it; empty where there is none such.
fn shown_change(session: &Session, at: Change) -> Result<String, AllocError> {
    match source_of(&session.snapshot, at.package, at.file) {
        Some((path, source)) => shown_place(session, path, source, at.offset),
        None => Ok(String::new(session.alloc)),
    }
}

// The word that stands at a place.
fn word_of(session: &Session, at: Change) -> &str {
    match source_of(&session.snapshot, at.package, at.file) {
        Some((_, source)) => token_at(source.text(), at.offset),
        None => "another name",
    }
}

// A place that is told after a renaming was tried, as a place of the texts as they are: of the renamed ones is that of the first fault which the renaming adds to
// as many as there are.
fn told_before(session: &Session, names: &Names, after: &Snapshot, at: Change) -> Change {
    match after.faults().get(session.snapshot.faults().len()) {
        Some(fault) if is_at(*fault, at) => place_before(names, *fault),
        _ => at,
    }
}

/// Why a renaming that was tried is refused, where something would change at a place: the first fault of a name that would be declared again, or else what stands
/// there.
///
/// # Errors
///
/// `AllocError` where memory is wanting.
pub(crate) fn refusal_of(
    session: &Session,
    names: &Names,
    after: &Snapshot,
    at: Change,
) -> Result<Refusal, AllocError> {
    let alloc = session.alloc;
    let text = match second_name(session, names, after) {
        Some((rule, at)) => {
            let place = shown_change(session, at)?;
            let (place, words) = (place.as_str(), meaning(rule));
            format!(in alloc; "with this name there would be a fault at {place}: {words}")?
        }
        None => {
            let at = told_before(session, names, after, at);
            let place = shown_change(session, at)?;
            let (place, word) = (place.as_str(), word_of(session, at));
            format!(in alloc;
                "this name would change what {word} at {place} means, or what is wrong there"
            )?
        }
    };
    refuse_with(alloc, ErrorCode::RequestFailed, text.as_str())
}

// The first place of a name in the package of a number.
fn first_in(names: &Names, package: usize) -> Option<Change> {
    let files = names.offsets.get(package)?;
    for (file, offsets) in files.iter().enumerate() {
        if let Some(offset) = offsets.first() {
            return Some(Change {
                package,
                file,
                offset: *offset,
            });
        }
    }
    None
}

/// The first place where a name is used that lies in another package than that of a path; none where there is none.
pub(crate) fn first_outside(session: &Session, names: &Names, path: &ImportPath) -> Option<Change> {
    let own = number_of(&session.snapshot, path);
    for package in 0..names.offsets.len() {
        if own != Some(package) {
            if let Some(at) = first_in(names, package) {
                return Some(at);
            }
        }
    }
    None
}

/// That a name cannot become one that is not exported, since another package uses it at a place.
///
/// # Errors
///
/// `AllocError` where memory is wanting.
pub(crate) fn not_exported(
    session: &Session,
    old: &str,
    new: &str,
    at: Change,
) -> Result<Refusal, AllocError> {
    let alloc = session.alloc;
    let place = shown_change(session, at)?;
    let place = place.as_str();
    let text = format!(in alloc;
        "{new} is not exported, and another package uses {old} at {place}"
    )?;
    refuse_with(alloc, ErrorCode::RequestFailed, text.as_str())
}
