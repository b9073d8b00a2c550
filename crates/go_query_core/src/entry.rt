//! What a listing shows of a package.
ghost use Rattle.std.specs.Prelude.{◌≡◌, IfOk, Some, slice_get};
ghost use Rattle.go_import_core.specs.graph_core.Packages.{IsPackageName, trees_of};
ghost use Rattle.go_import_core.specs.graph_core.Workspaces.{IsWorkspace};
ghost use Rattle.go_complete_core.specs.package_core.PackagePartInputs.{path_in};
ghost use Rattle.go_complete_core.specs.summary_core.ShownShown.{texts};
ghost use Rattle.go_query_core.specs.Entries.{AreDeps, AreImports, IsEntry, entry_with};

use go_complete_core::package_core::Part;
use go_complete_core::snap_core::Snapshot;
use go_complete_core::summary_core::{deps_shown, imports_shown};
use go_import_core::graph_core::SourceFile;
use go_import_core::path_core::ImportPath;
use std::alloc::{AllocError, Global};
use std::marker::Model;

/// An assembled package of a snapshot, as another one sees it, or as it sees itself: what `go list` shows of it, in the way of its fields `ImportPath`,
/// `Name`, `GoFiles`, `Imports` and `Deps`. The lists are made when they are asked for. Contracts see the snapshot, the number and the part of the
/// package, and the path of the package that sees it.
pub struct PackageEntry<'s> {
    snapshot: &'s Snapshot,
    number: usize,
    part: &'s Part,
    from: &'s ImportPath,
}

impl Drop for PackageEntry<'_> {
    fn drop(self) {
        let PackageEntry {
            snapshot: _,
            number: _,
            part: _,
            from: _,
        } = self;
    }
}

impl<'s> Model for PackageEntry<'s> {
    ghost use Rattle.std.specs.Coded.{codes};
    ghost use Rattle.go_import_core.specs.graph_core.Workspaces.{coded_package};
    ghost use Rattle.go_declared_core.specs.block_core.Blocks.{coded_blocks};
    ghost use Rattle.go_declared_core.specs.codes.FaceCodes.{coded_face, coded_operand};
    ghost use Rattle.go_complete_core.specs.summary_core.codes.SummaryCodes.{coded_summary};
    ghost use Rattle.go_complete_core.specs.package_core.PackagePartInputs.{coded_input};
    ghost use Rattle.go_query_core.specs.Entries.{EntryOf, IsEntry, entry_with};

    ghost Value = { EntryOf };

    ghost coded = { Prim.hlevel (codes, coded_package, coded_input, coded_blocks, coded_face, coded_operand, coded_summary) };

    ghost view = { λ e. entry_with e.snapshot.now e.number e.part.now e.from.now };

    ghost invariant = { λ e. IsEntry (entry_with e.snapshot.now e.number e.part.now e.from.now) };
}

impl<'s> PackageEntry<'s> {
    /// The package of a number and a part of a snapshot, as the package of a path sees it.
    pub(crate) fn new(
        snapshot: &'s Snapshot,
        number: usize,
        part: &'s Part,
        from: &'s ImportPath,
    ) -> PackageEntry<'s>
        requires { slice_get snapshot.now.parts number ≡ Some (Some part.now) }
        ensures { result ≡ entry_with snapshot.now number part.now from.now }
    {
        // Its packages are in order of path, and its parts are those of its packages.
        let _packages = snapshot.sources().packages();
        PackageEntry {
            snapshot,
            number,
            part,
            from,
        }
    }

    /// The path of the package.
    pub fn path(&self) -> &'s ImportPath
        ensures { result.now ≡ path_in self.now.of_part.input }
    {
        self.part.path()
    }

    /// The name in the clauses of the package.
    pub fn name(&self) -> &'s str
        ensures { IsPackageName (trees_of self.now.of_part.input.source.1) result.now }
    {
        self.part.input().package().name()
    }

    /// The files of the package, in byte order of name.
    pub fn files(&self) -> &'s [SourceFile]
        ensures { result.now ≡ self.now.of_part.input.source.1 }
    {
        self.part.input().package().files()
    }

    /// The paths of the packages that its imports come to, as far as the package that sees it may import them: each once, in byte order. An import that
    /// is not used counts as well.
    ///
    /// # Errors
    ///
    /// `AllocError` where memory is wanting.
    pub fn imports(&self, alloc: Global) -> Result<Vec<&'s str>, AllocError>
        ensures { IfOk result (λ paths. AreImports self.now (texts paths.items)) }
    {
        imports_shown(alloc, self.part.input().imports(), self.from)
    }

    /// The paths of the packages that imports lead to from it, in any number of steps, as far as the package that sees it may import them: each once, in
    /// byte order. An import that is not used counts as well.
    ///
    /// # Errors
    ///
    /// `AllocError` where memory is wanting.
    pub fn deps(&self, alloc: Global) -> Result<Vec<&'s str>, AllocError>
        ensures { IfOk result (λ paths. AreDeps self.now (texts paths.items)) }
    {
        deps_shown(alloc, self.part.input().reached(), self.from)
    }
}
