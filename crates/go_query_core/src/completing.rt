//! The names that could stand in place of an identifier that is used.
ghost use Rattle.std.specs.Prelude.{◌≡◌, ◌⊎◌, All, IfErr, IfOk, MatchOption};
ghost use Rattle.go_tree_nodes.specs.Shapes.{file_of};
ghost use Rattle.go_parse_core.specs.tree_core.Occurrences.{NoneCovers, file_occs};
ghost use Rattle.go_cursor_core.specs.Spots.{spot_seen};
ghost use Rattle.go_complete_core.specs.candidate_core.FittingFitting.{ShowsItsExports};
ghost use Rattle.go_complete_core.specs.place.Completions.{texts_of};
ghost use Rattle.go_complete_core.specs.snap_core.Snapshots.{file_in_shown};
ghost use Rattle.go_query_core.specs.Completing.{IsAskedAt, IsCompletion, IsCompletionIn, IsUnasked, IsUnaskedIn};
ghost use Rattle.go_query_core.specs.mirrors.Spots.{BeginsAt, HasSpots};

use crate::defining::{lacking, unused};
use go_complete_core::hint::names_by_types;
use go_complete_core::names_there;
use go_complete_core::package_core::part_has_occurrences;
use go_complete_core::snap_core::{FileIn, Snapshot};
use go_cursor_core::{FoundSpot, names_are_occurrences, spot_in_file};
use go_import_core::path_core::ImportPath;
use go_parse_core::tree_core::at;
use go_tree_nodes::text_core::Rule;
use std::alloc::Global;

// Where the identifier begins that is used at an offset of a file.
fn start_at(file: FileIn<'_>, offset: usize) -> Option<usize>
    requires { HasSpots (file_in_shown file) }
    ensures { MatchOption result (NoneCovers offset (file_occs (file_in_shown file.entry).tree)) (λ start. BeginsAt (file_in_shown file.entry) offset start) }
{
    match at(file.tree, offset) {
        Some(number) => Some(file.made.answers.answers[number.0].offset),
        None => None,
    }
}

// The identifier that is used at an offset of a file and begins here.
fn spot_from(
    alloc: Global,
    file: FileIn<'_>,
    offset: usize,
    start: usize,
) -> Result<FoundSpot<'_>, Rule>
    requires spots { HasSpots (file_in_shown file) }
    requires begins { BeginsAt (file_in_shown file) offset start }
    ensures ok { IfOk result (λ found. IsAskedAt (file_in_shown file.entry) offset (spot_seen found)) }
    ensures err { IfErr result (λ rule. rule ≡ Rule.M0) }
{
    // An identifier that is used has a spot.
    names_are_occurrences();
    match spot_in_file(alloc, file.tree, start) {
        Ok(Some(found)) => Ok(found),
        Ok(None) => unreachable!(),
        Err(_) => Err(Rule::M0),
    }
}

// The names in place of this identifier, which is used at an offset of a file.
fn names_for(
    alloc: Global,
    file: FileIn<'_>,
    offset: usize,
    found: &FoundSpot<'_>,
) -> Result<Vec<String>, Rule>
    requires spots { HasSpots (file_in_shown file) }
    requires exports { All ShowsItsExports (file_in_shown file).of_part.input.reached }
    requires asked { IsAskedAt (file_in_shown file) offset (spot_seen found.now) }
    ensures ok { IfOk result (λ names. IsCompletionIn (file_in_shown file.entry) offset (texts_of names)) }
    ensures err { IfErr result (λ rule. rule ≡ Rule.M0) }
{
    match names_there(alloc, file.part, file.number, file.tree, found)? {
        Some(names) => Ok(names),
        None => names_by_types(alloc, file.part, file.number, file.tree, found),
    }
}

// The names in place of the identifier that is used at an offset of a file.
fn complete_in(alloc: Global, file: FileIn<'_>, offset: usize) -> Result<Vec<String>, Rule>
    requires spots { HasSpots (file_in_shown file) }
    requires exports { All ShowsItsExports (file_in_shown file).of_part.input.reached }
    ensures ok { IfOk result (λ names. IsCompletionIn (file_in_shown file.entry) offset (texts_of names)) }
    ensures err { IfErr result (λ rule. (rule ≡ Rule.M0) ⊎ IsUnaskedIn (file_in_shown file.entry) offset rule) }
{
    match start_at(file, offset) {
        Some(start) => {
            let found = spot_from(alloc, file, offset, start)?;
            names_for(alloc, file, offset, &found)
        }
        None => Err(unused(alloc, file.source.text(), offset)),
    }
}

/// The names that have a declaration in place of the identifier that is used at an offset in bytes of the file of a name, in the package of a path: in
/// byte order, each once. Each is a name that, put in place of the identifier, has a declaration as its outcome, and no other does.
///
/// Nothing is checked again but, where what a name has there depends on a type, the one operand left of the dot, or the name of the literal's type. The
/// time is linear in the file up to the offset, and in the names that are in scope there or that the package exports, but for the order of those that are
/// answered; where a type decides, in the packages that the package reaches, in its declarations and in the locals of the file.
///
/// # Errors
///
/// - `Rule::Q1` where there is no assembled package of the path.
/// - `Rule::Q2` where it has no file of the name, and where no identifier covers the offset.
/// - `Rule::Q3` where an identifier covers the offset that is not used: the package's name, and what is declared there.
/// - `Rule::M0` where memory is wanting.
///
/// The Go specification, "Declarations and scope", "Qualified identifiers", "Selectors", "Calls", "Composite literals".
pub fn complete(
    alloc: Global,
    snapshot: &Snapshot,
    path: &ImportPath,
    file: &str,
    offset: usize,
) -> Result<Vec<String>, Rule>
    ensures ok { IfOk result (λ names. IsCompletion snapshot.now path.now file.now offset (texts_of names)) }
    ensures err { IfErr result (λ rule. (rule ≡ Rule.M0) ⊎ IsUnasked snapshot.now path.now file.now offset rule) }
{
    // Each occurrence of a file has one answer, at its place.
    part_has_occurrences();
    let _packages = snapshot.sources().packages();
    match snapshot.file(path, file) {
        Some(found) => {
            let _imports = found.part.input().imports();
            complete_in(alloc, found, offset)
        }
        None => Err(lacking(snapshot, path)),
    }
}
