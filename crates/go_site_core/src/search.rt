//! The numbers of packages by their paths.
ghost use Rattle.std.specs.Prelude.{◌≡◌, MatchOption, List, None, Some};
ghost use Rattle.std.specs.List.Sorted.{IsStrictlySortedBy};
ghost use Rattle.std.specs.Map.{keys_of};
ghost use Rattle.go_graph_core.specs.Imports.{IsNumbered};
ghost use Rattle.go_graph_core.specs.Sources.{SourceModel};
ghost use Rattle.go_graph_core.specs.Workspaces.{by_bytes, files_at};

use go_graph_core::PackageSource;

/// The number of the package of a path among packages in byte order of path; `None` where there is none of that path. The time is logarithmic in
/// the packages.
pub(crate) fn number_of(packages: &[PackageSource], path: &str) -> Option<usize>
    requires { IsStrictlySortedBy by_bytes (keys_of packages.now) }
    ensures { MatchOption result (files_at packages.now path.now ≡ None) (λ number. (files : List SourceModel) × IsNumbered packages.now path.now number files × (files_at packages.now path.now ≡ Some files)) }
{
    packages
        .binary_search_by(|source| source.path().as_str().cmp(path))
        .ok()
}
