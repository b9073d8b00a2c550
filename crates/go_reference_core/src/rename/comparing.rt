//! The comparison of two snapshots.
ghost use Rattle.std.specs.Prelude.{◌≡◌, ◌↔◌, IsTrue, MatchOption, None, Some, map};
ghost use Rattle.go_graph_core.specs.Workspaces.{IsWorkspace};
ghost use Rattle.go_query_core.specs.package_core.PackagePartParts.{file_shown};
ghost use Rattle.go_reference_core.specs.rename.Moving.{AllPaired, Corresponds, IsMovedFault, IsMovedFile, IsMovedPart, IsMovedUse, IsSamePath, moves_of};
ghost use Rattle.go_reference_core.specs.rename.mirrors.Pairs.{Stay};

use crate::rename::names::{Names, lies};
use crate::rename::outcomes::{is_moved_use, is_same_rule};
use go_graph_core::PackageSource;
use go_query_core::package_core::{Part, PartFile};
use go_query_core::report_core::Answer;
use go_query_core::snap_core::{PlacedFault, Snapshot};

/// Where something is not as it was: in the snapshot before, but for a fault that is new.
#[derive(Clone, Copy, Debug, PartialEq, Eq)]
pub struct Change {
    /// The number of the package, in byte order of path, from 0.
    pub package: usize,
    /// The number of the file in its package, in byte order of name, from 0.
    pub file: usize,
    /// The offset in bytes from the file's start.
    pub offset: usize,
}

// The offset of the first occurrence of the file of two numbers that is not as it was; 0 where there are not as many.
fn first_use(
    packages: &[PackageSource],
    names: &Names,
    package: usize,
    file: usize,
    old: &[Answer],
    new: &[Answer],
) -> Option<usize>
    requires { IsWorkspace packages.now }
    ensures { MatchOption result (AllPaired (λ _. IsMovedUse (moves_of names.now) packages.now «package» file) old.now new.now) (λ at. ¬ AllPaired (λ _. IsMovedUse (moves_of names.now) packages.now «package» file) old.now new.now) }
{
    if new.len() != old.len() {
        return Some(0);
    }
    for number in 0..old.len() {
        if !is_moved_use(packages, names, package, file, &old[number], &new[number]) {
            return Some(old[number].offset);
        }
    }
    None
}

// The offset of the first occurrence of the file of two numbers that is not as it was, by what the file has.
fn first_in_file(
    packages: &[PackageSource],
    names: &Names,
    package: usize,
    file: usize,
    old: &PartFile,
    new: &PartFile,
) -> Option<usize>
    requires { IsWorkspace packages.now }
    ensures { MatchOption result (IsMovedFile (moves_of names.now) packages.now «package» file (file_shown old.now) (file_shown new.now)) (λ at. ¬ IsMovedFile (moves_of names.now) packages.now «package» file (file_shown old.now) (file_shown new.now)) }
{
    let had = old.answers.answers.as_slice();
    let has = new.answers.answers.as_slice();
    first_use(packages, names, package, file, had, has)
}

// The first occurrence of the package of a number that is not as it was, by what its files have.
fn first_in_files(
    packages: &[PackageSource],
    names: &Names,
    package: usize,
    old: &[PartFile],
    new: &[PartFile],
) -> Option<Change>
    requires { IsWorkspace packages.now }
    ensures { MatchOption result (AllPaired (IsMovedFile (moves_of names.now) packages.now «package») (map file_shown old.now) (map file_shown new.now)) (λ at. ¬ AllPaired (IsMovedFile (moves_of names.now) packages.now «package») (map file_shown old.now) (map file_shown new.now)) }
{
    if new.len() != old.len() {
        return Some(front_of(package));
    }
    for file in 0..old.len() {
        match first_in_file(packages, names, package, file, &old[file], &new[file]) {
            Some(offset) => {
                return Some(Change {
                    package,
                    file,
                    offset,
                });
            }
            None => {}
        }
    }
    None
}

// The front of the first file of the package of a number.
fn front_of(package: usize) -> Change {
    Change {
        package,
        file: 0,
        offset: 0,
    }
}

// What stands in the files of a part.
fn files_of(part: &Part) -> &[PartFile]
    ensures { map file_shown result.now ≡ part.now.content.files }
{
    part.content().files.as_slice()
}

// The first occurrence of the package of a number that is not as it was, where it was assembled.
fn first_in_its(
    packages: &[PackageSource],
    names: &Names,
    package: usize,
    old: &Part,
    new: &Option<Part>,
) -> Option<Change>
    requires { IsWorkspace packages.now }
    ensures { MatchOption result (IsMovedPart (moves_of names.now) packages.now «package» (Some old.now) new.now) (λ at. ¬ IsMovedPart (moves_of names.now) packages.now «package» (Some old.now) new.now) }
{
    match new {
        Some(its) => {
            let had = files_of(old);
            let has = files_of(its);
            first_in_files(packages, names, package, had, has)
        }
        None => Some(front_of(package)),
    }
}

// The front of the package of a number, where it is assembled.
fn front_if_some(package: usize, part: &Option<Part>) -> Option<Change>
    ensures { MatchOption result (part.now ≡ None) (λ at. ¬ (part.now ≡ None)) }
{
    match part {
        Some(_) => Some(front_of(package)),
        None => None,
    }
}

// The first occurrence of the package of a number that is not as it was, by its parts.
fn first_in_part(
    packages: &[PackageSource],
    names: &Names,
    package: usize,
    old: &Option<Part>,
    new: &Option<Part>,
) -> Option<Change>
    requires { IsWorkspace packages.now }
    ensures { MatchOption result (IsMovedPart (moves_of names.now) packages.now «package» old.now new.now) (λ at. ¬ IsMovedPart (moves_of names.now) packages.now «package» old.now new.now) }
{
    match old {
        Some(own) => first_in_its(packages, names, package, own, new),
        None => front_if_some(package, new),
    }
}

// The first occurrence that is not as it was.
fn first_in_parts(
    packages: &[PackageSource],
    names: &Names,
    old: &[Option<Part>],
    new: &[Option<Part>],
) -> Option<Change>
    requires { IsWorkspace packages.now }
    ensures { MatchOption result (AllPaired (IsMovedPart (moves_of names.now) packages.now) old.now new.now) (λ at. ¬ AllPaired (IsMovedPart (moves_of names.now) packages.now) old.now new.now) }
{
    if new.len() != old.len() {
        return Some(front_of(0));
    }
    for package in 0..old.len() {
        match first_in_part(packages, names, package, &old[package], &new[package]) {
            Some(change) => return Some(change),
            None => {}
        }
    }
    None
}

/// Whether packages have one path.
pub(crate) fn has_same_path(old: &PackageSource, new: &PackageSource) -> bool
    ensures { IsTrue result ↔ (new.now.0 ≡ old.now.0) }
{
    let path = old.path();
    new.path().is_same(path)
}

// The number of the first package that has not the path that it had; 0 where there are not as many.
fn first_path(old: &[PackageSource], new: &[PackageSource]) -> Option<usize>
    ensures { MatchOption result (AllPaired IsSamePath old.now new.now) (λ at. ¬ AllPaired IsSamePath old.now new.now) }
{
    if new.len() != old.len() {
        return Some(0);
    }
    for package in 0..old.len() {
        if !has_same_path(&old[package], &new[package]) {
            return Some(package);
        }
    }
    None
}

// Whether a fault is where another one comes to lie.
fn is_moved_fault(names: &Names, old: PlacedFault, new: PlacedFault) -> bool
    ensures { IsTrue result ↔ IsMovedFault (moves_of names.now) old new }
{
    if new.package != old.package {
        return false;
    }
    if new.file != old.file {
        return false;
    }
    if !is_same_rule(new.rule, old.rule) {
        return false;
    }
    lies(names, old.package, old.file, old.offset, new.offset)
}

// Where a fault stands.
fn change_at(fault: PlacedFault) -> Change {
    Change {
        package: fault.package,
        file: fault.file,
        offset: fault.offset,
    }
}

// Where the first fault stands that is not among these so often.
fn first_beyond(faults: &[PlacedFault], others: usize) -> Change {
    match faults.get(others) {
        Some(fault) => change_at(*fault),
        None => front_of(0),
    }
}

// The first fault that is not as it was.
fn first_fault(names: &Names, old: &[PlacedFault], new: &[PlacedFault]) -> Option<Change>
    ensures { MatchOption result (AllPaired (λ _. IsMovedFault (moves_of names.now)) old.now new.now) (λ at. ¬ AllPaired (λ _. IsMovedFault (moves_of names.now)) old.now new.now) }
{
    if new.len() < old.len() {
        return Some(first_beyond(old, new.len()));
    }
    for number in 0..old.len() {
        if !is_moved_fault(names, old[number], new[number]) {
            return Some(change_at(old[number]));
        }
    }
    if old.len() < new.len() {
        return Some(first_beyond(new, old.len()));
    }
    None
}

// The first occurrence or fault that is not as it was, among packages of the snapshot before.
fn first_in_content(
    packages: &[PackageSource],
    names: &Names,
    old: &Snapshot,
    new: &Snapshot,
) -> Option<Change>
    requires { IsWorkspace packages.now }
    ensures { MatchOption result (Stay (moves_of names.now) packages.now old.now new.now) (λ at. ¬ Stay (moves_of names.now) packages.now old.now new.now) }
{
    let own = old.parts();
    let its = new.parts();
    match first_in_parts(packages, names, own, its) {
        Some(change) => Some(change),
        None => {
            let had = old.faults();
            let has = new.faults();
            first_fault(names, had, has)
        }
    }
}

/// Where the first occurrence stands that has something else than it had, or else the first fault that came or went, where names are replaced; none where each
/// occurrence has what it had, and each fault stays. Packages, files, occurrences and faults correspond by their numbers. The time is linear in the occurrences
/// of both snapshots, and in each file in the names that are replaced there.
///
/// The Go specification, "Declarations and scope".
pub fn first_change(old: &Snapshot, new: &Snapshot, names: &Names) -> Option<Change>
    ensures { MatchOption result (Corresponds (moves_of names.now) old.now new.now) (λ at. ¬ Corresponds (moves_of names.now) old.now new.now) }
{
    let own = old.sources().packages();
    let its = new.sources().packages();
    match first_path(own, its) {
        Some(package) => Some(front_of(package)),
        None => first_in_content(own, names, old, new),
    }
}
