//! Snapshots that are kept.
ghost use Rattle.std.specs.Prelude.{◌≡◌, All, IfOk, length, slice_get};
ghost use Rattle.std.specs.Option.{option_copied};
ghost use Rattle.go_graph_core.specs.Workspaces.{AreAllRead, IsWorkspace};
ghost use Rattle.go_snap_core.specs.Snapshots.{IsSnapshot};
ghost use Rattle.go_snap_core.specs.Staying.{StaysWhere};

use crate::history::lists::{shared_packages, shared_parts, staying_faults};
use go_graph_core::PackageSource;
use go_graph_core::collections_core::Pieces;
use go_package_core::package_part::Part;
use go_snap_core::{PlacedFault, Snapshot};
use std::alloc::{AllocError, Global};
use std::marker::Model;

/// A snapshot, by pieces that several snapshots share. Contracts see the snapshot.
pub struct KeptSnapshot {
    packages: Pieces<PackageSource>,
    /// By the numbers of packages; none where files are not assembled.
    parts: Pieces<Option<Part>>,
    faults: Pieces<PlacedFault>,
}

impl Drop for KeptSnapshot {
    fn drop(self) {
        let KeptSnapshot {
            packages: _,
            parts: _,
            faults: _,
        } = self;
    }
}

impl Model for KeptSnapshot {
    ghost use Rattle.go_snap_core.specs.SnapshotCodes.{coded_snapshot};
    ghost use Rattle.go_snap_core.specs.Snapshots.{SnapshotModel, snapshot_with};
    ghost use Rattle.go_submit_core.specs.history.Kept.{IsKept};

    ghost Value = { SnapshotModel };

    ghost coded = { coded_snapshot };

    ghost view = { λ k. snapshot_with k.packages k.parts k.faults };

    ghost invariant = { λ k. IsKept k.packages k.parts k.faults };
}

impl KeptSnapshot {
    /// A snapshot, to be kept. It shares nothing.
    ///
    /// # Errors
    ///
    /// `AllocError` where memory is wanting.
    pub fn of(alloc: Global, snapshot: &Snapshot) -> Result<KeptSnapshot, AllocError>
        ensures { IfOk result (λ k. k ≡ snapshot.now) }
    {
        let packages = shared_packages(alloc, snapshot.sources().packages())?;
        let parts = shared_parts(alloc, snapshot.parts())?;
        let faults = Vec::from_slice(alloc, snapshot.faults())?;
        Ok(KeptSnapshot {
            packages: Pieces::from_vec(alloc, packages)?,
            parts: Pieces::from_vec(alloc, parts)?,
            faults: Pieces::from_vec(alloc, faults)?,
        })
    }

    /// A snapshot, to be kept, where the packages of the numbers that are marked, and their parts, are those of the earlier snapshot. It shares the pieces
    /// in which all are marked, and those of faults that are the same.
    ///
    /// # Errors
    ///
    /// `AllocError` where memory is wanting.
    pub fn over(
        alloc: Global,
        earlier: &KeptSnapshot,
        snapshot: &Snapshot,
        same: &[bool],
    ) -> Result<KeptSnapshot, AllocError>
        requires { StaysWhere earlier.now snapshot.now same.now }
        ensures { IfOk result (λ k. k ≡ snapshot.now) }
    {
        let packages = shared_packages(alloc, snapshot.sources().packages())?;
        let parts = shared_parts(alloc, snapshot.parts())?;
        let faults = Vec::from_slice(alloc, snapshot.faults())?;
        let same_faults = staying_faults(alloc, &earlier.faults, snapshot.faults())?;
        Ok(KeptSnapshot {
            packages: Pieces::over(alloc, &earlier.packages, packages, same)?,
            parts: Pieces::over(alloc, &earlier.parts, parts, same)?,
            faults: Pieces::over(alloc, &earlier.faults, faults, same_faults.as_slice())?,
        })
    }

    /// The same snapshot once more. It takes no memory.
    ///
    /// # Errors
    ///
    /// `AllocError` where it has too many owners.
    pub fn share(&self) -> Result<KeptSnapshot, AllocError>
        ensures { IfOk result (λ k. k ≡ self.now) }
    {
        Ok(KeptSnapshot {
            packages: self.packages.share()?,
            parts: self.parts.share()?,
            faults: self.faults.share()?,
        })
    }

    /// How many packages there are. Its clauses `workspace`, `read` and `whole` say what every call on a snapshot rests on: these are the packages of a
    /// workspace, each file has the content of its text, and the parts and the faults are what the trees of all packages give.
    pub fn package_count(&self) -> usize
        ensures value { result ≡ length self.now.sources }
        ensures workspace { IsWorkspace self.now.sources }
        ensures read { All AreAllRead self.now.sources }
        ensures whole { IsSnapshot self.now.sources self.now.parts self.now.faults }
    {
        self.packages.len()
    }

    /// The package of a number, in byte order of path from 0, where there is one.
    pub fn package(&self, number: usize) -> Option<&PackageSource>
        ensures { option_copied result ≡ slice_get self.now.sources number }
    {
        self.packages.get(number)
    }

    /// The part of the package of a number, where there is a package: none where its files are not assembled.
    pub fn part(&self, number: usize) -> Option<&Option<Part>>
        ensures { option_copied result ≡ slice_get self.now.parts number }
    {
        self.parts.get(number)
    }

    /// How many faults there are.
    pub fn fault_count(&self) -> usize
        ensures { result ≡ length self.now.faults }
    {
        self.faults.len()
    }

    /// The fault of a number, from 0, where there is one: in order of package, file, offset, and of the bytes of the rule's number.
    pub fn fault(&self, number: usize) -> Option<&PlacedFault>
        ensures { option_copied result ≡ slice_get self.now.faults number }
    {
        self.faults.get(number)
    }
}
