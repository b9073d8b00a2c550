//! Parts of snapshots by numbers.
ghost use Rattle.std.specs.Prelude.{◌≡◌, MatchOption, Some, slice_get};
ghost use Rattle.go_complete_core.specs.package_core.PackagePartParts.{PartModel};
ghost use Rattle.go_complete_core.specs.snap_core.Snapshots.{IsPartAt};
ghost use Rattle.go_query_core.specs.Parts.{HasPart, IsPartOf};

use go_complete_core::package_core::Part;
use go_complete_core::snap_core::Snapshot;
use go_import_core::list::number_of;
use go_import_core::path_core::ImportPath;

// The part of the package of a number, if it has one.
fn part_at(snapshot: &Snapshot, number: usize) -> Option<&Part>
    ensures { MatchOption result ((p : PartModel) → ¬ (slice_get snapshot.now.parts number ≡ Some (Some p))) (λ p. slice_get snapshot.now.parts number ≡ Some (Some p.now)) }
{
    let parts = snapshot.parts();
    match parts.get(number) {
        Some(Some(part)) => Some(part),
        Some(None) => None,
        None => None,
    }
}

/// The part of the package of a number that has one.
pub(crate) fn part_there(snapshot: &Snapshot, number: usize) -> &Part
    requires { HasPart snapshot.now number }
    ensures { slice_get snapshot.now.parts number ≡ Some (Some result.now) }
{
    match part_at(snapshot, number) {
        Some(part) => part,
        None => unreachable!(),
    }
}

/// The number and the part of the assembled package of a path; `None` for any other path.
pub(crate) fn own_part<'s>(snapshot: &'s Snapshot, path: &ImportPath) -> Option<(usize, &'s Part)>
    ensures { MatchOption result ((p : PartModel) → ¬ IsPartAt snapshot.now.sources snapshot.now.parts path.now p) (λ found. IsPartOf snapshot.now path.now found.0 found.1.now) }
{
    let packages = snapshot.sources().packages();
    match snapshot.part(path) {
        Some(part) => match number_of(packages, path.as_str()) {
            Some(number) => Some((number, part)),
            None => None,
        },
        None => None,
    }
}
