//! Parts of snapshots by paths.
ghost use Rattle.std.specs.Prelude.{◌≡◌, ◌⊎◌, ◌<◌, IfErr, IfOk, MatchOption, Some, length, slice_get};
ghost use Rattle.go_graph_core.specs.declared.imports.ImportOutcome.TheVariants.{Refused};
ghost use Rattle.go_import_core.specs.list.Importing.{IsJudgedAt};
ghost use Rattle.go_package_core.specs.package_part.Parts.{PartModel};
ghost use Rattle.go_snap_core.specs.Snapshots.{IsPartAt};
ghost use Rattle.go_query_core.specs.Documenting.{IsImportedPart};
ghost use Rattle.go_query_core.specs.Parts.{HasPart, IsPartOf};

use go_graph_core::ImportOutcome;
use go_import_core::list::{judge_import, number_of};
use go_package_core::package_part::Part;
use go_path_core::ImportPath;
use go_path_core::text_core::Rule;
use go_snap_core::Snapshot;
use std::alloc::{AllocError, Global};

// The part of the package of a number, if it has one.
fn part_at(snapshot: &Snapshot, number: usize) -> Option<&Part>
    ensures { MatchOption result ((p : PartModel) → ¬ (slice_get snapshot.now.parts number ≡ Some (Some p))) (λ p. slice_get snapshot.now.parts number ≡ Some (Some p.now)) }
{
    let parts = snapshot.parts();
    match parts.get(number) {
        Some(Some(part)) => Some(part),
        Some(None) => None,
        None => None,
    }
}

// The part of the package of a number that has one.
fn part_there(snapshot: &Snapshot, number: usize) -> &Part
    requires { HasPart snapshot.now number }
    ensures { slice_get snapshot.now.parts number ≡ Some (Some result.now) }
{
    match part_at(snapshot, number) {
        Some(part) => part,
        None => unreachable!(),
    }
}

/// The number and the part of the assembled package of a path; `None` for any other path.
pub(crate) fn own_part<'s>(snapshot: &'s Snapshot, path: &ImportPath) -> Option<(usize, &'s Part)>
    ensures { MatchOption result ((p : PartModel) → ¬ IsPartAt snapshot.now.sources snapshot.now.parts path.now p) (λ found. IsPartOf snapshot.now path.now found.0 found.1.now) }
{
    let packages = snapshot.sources().packages();
    match snapshot.part(path) {
        Some(part) => match number_of(packages, path.as_str()) {
            Some(number) => Some((number, part)),
            None => None,
        },
        None => None,
    }
}

/// The part of the package that an import of a path comes to in the package of a number.
///
/// # Errors
///
/// The rule of the import, and `Rule::M0` where memory is wanting.
pub(crate) fn imported_part<'s>(
    alloc: Global,
    snapshot: &'s Snapshot,
    own: usize,
    path: &str,
) -> Result<&'s Part, Rule>
    requires { own < length snapshot.now.sources }
    ensures ok { IfOk result (λ p. IsImportedPart snapshot.now own path.now p.now) }
    ensures err { IfErr result (λ rule. (rule ≡ Rule.M0) ⊎ IsJudgedAt snapshot.now.sources own path.now (Refused rule)) }
{
    let sources = snapshot.sources();
    match judge_import(alloc, sources, own, path) {
        Ok(ImportOutcome::Package(number)) => Ok(part_there(snapshot, number)),
        Ok(ImportOutcome::Refused(rule)) => Err(rule),
        Err(AllocError) => Err(Rule::M0),
    }
}
