//! The numbers of packages by their paths.
ghost use Rattle.std.specs.Prelude.{◌≡◌, IfOk, position};
ghost use Rattle.std.specs.Str.{bytes_eq};
ghost use Rattle.std.specs.List.Sorted.{IsStrictlySortedBy};
ghost use Rattle.std.specs.Map.{keys_of};
ghost use Rattle.go_graph_core.specs.Workspaces.{by_bytes};
ghost use Rattle.go_graph_core.specs.mirrors.Placed.{placed};

use crate::workspace::PackageSource;
use go_collections_core::name_table::NameTable;
use std::alloc::{AllocError, Global};
use std::marker::Model;

/// The paths of packages, where a path's place is found at once. Contracts see it as the list of the paths, in order.
///
/// It has copies of the paths. They lie side by side, where those of the packages lie apart among all trees.
#[derive(Drop)]
pub(crate) struct PathTable<'a> {
    packages: &'a [PackageSource],
    places: NameTable<usize>,
}

impl<'a> Model for PathTable<'a> {
    ghost use Rattle.std.specs.Prelude.{◌≡◌, ℕ, List};
    ghost use Rattle.std.specs.Map.{keys_of};
    ghost use Rattle.go_graph_core.specs.mirrors.Placed.{placed};

    ghost Value = { List (List ℕ) };

    ghost view = { λ t. keys_of t.packages.now };

    ghost invariant = { λ t. t.places.names ≡ placed 0 (keys_of t.packages.now) };
}

/// Copies of the paths of packages, each with its place.
fn places_of(alloc: Global, packages: &[PackageSource]) -> Result<NameTable<usize>, AllocError>
    requires { IsStrictlySortedBy by_bytes (keys_of packages.now) }
    ensures { IfOk result (λ places. places.names ≡ placed 0 (keys_of packages.now)) }
{
    let mut places = NameTable::new(alloc);
    for (place, source) in packages.iter().enumerate() {
        places.add(alloc, source.path().as_str(), place)?;
    }
    Ok(places)
}

impl<'a> PathTable<'a> {
    /// The paths of packages.
    pub(crate) fn of(
        alloc: Global,
        packages: &'a [PackageSource],
    ) -> Result<PathTable<'a>, AllocError>
        requires { IsStrictlySortedBy by_bytes (keys_of packages.now) }
        ensures { IfOk result (λ table. table ≡ keys_of packages.now) }
    {
        let places = places_of(alloc, packages)?;
        Ok(PathTable { packages, places })
    }

    /// Where a path stands, if it is there.
    pub(crate) fn number(&self, path: &str) -> Option<usize>
        ensures { result ≡ position (bytes_eq path.now) self.now }
    {
        self.places.find(path).copied()
    }
}
