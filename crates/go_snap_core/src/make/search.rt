//! The part of a path, among those of a workspace.
ghost use Rattle.std.specs.Prelude.{◌≡◌, All, List, MatchOption, None, Some, slice_get};
ghost use Rattle.std.specs.List.Sorted.{IsStrictlySortedBy};
ghost use Rattle.std.specs.Map.{keys_of};
ghost use Rattle.go_graph_core.specs.Imports.{HasNoPackage, IsNumbered};
ghost use Rattle.go_graph_core.specs.Sources.{SourceModel};
ghost use Rattle.go_graph_core.specs.Workspaces.{AreAllRead, IsWorkspace, by_bytes};
ghost use Rattle.go_emit_core.specs.package_core.PackagePartParts.{PartModel};
ghost use Rattle.go_snap_core.specs.make.Finding.{IsPartAt};

use go_emit_core::package_core::Part;
use go_graph_core::{PackageSource, Workspace};

/// The number of the package of a path among packages in byte order of path; `None` where there is none of that path. The time is logarithmic in
/// the packages.
pub fn package_of(packages: &[PackageSource], path: &str) -> Option<usize>
    requires { IsStrictlySortedBy by_bytes (keys_of packages.now) }
    ensures { MatchOption result (HasNoPackage packages.now path.now) (λ number. (files : List SourceModel) × IsNumbered packages.now path.now number files) }
{
    packages
        .binary_search_by(|source| source.path().as_str().cmp(path))
        .ok()
}

/// The part of a number, if there is one.
fn part_at(parts: &[Option<Part>], number: usize) -> Option<&Part>
    ensures { MatchOption result ((p : PartModel) → ¬ (slice_get parts.now number ≡ Some (Some p))) (λ p. slice_get parts.now number ≡ Some (Some p.now)) }
{
    match parts.get(number) {
        Some(Some(part)) => Some(part),
        Some(None) => None,
        None => None,
    }
}

/// The part of the package of a path, where the packages of a workspace have these parts by their numbers; `None` where there is no such package,
/// and where it has no part. The time is logarithmic in the packages.
pub fn part_of<'a>(sources: &Workspace, parts: &'a [Option<Part>], path: &str) -> Option<&'a Part>
    ensures well { IsWorkspace sources.now }
    ensures read { All AreAllRead sources.now }
    ensures part { MatchOption result ((p : PartModel) → ¬ IsPartAt sources.now parts.now path.now p) (λ p. IsPartAt sources.now parts.now path.now p.now) }
{
    let number = package_of(sources.packages(), path)?;
    part_at(parts, number)
}
