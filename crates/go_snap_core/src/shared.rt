//! Snapshots that several hold.
ghost use Rattle.std.specs.Prelude.{◌≡◌, IfOk};

use crate::snapshot::Snapshot;
use std::alloc::{AllocError, Global};
use std::marker::Model;
use std::sync::Arc;

/// A snapshot that is shared. A handle over one shared pointer; contracts see the snapshot.
pub struct SharedSnapshot {
    snapshot: Arc<Snapshot>,
}

impl Drop for SharedSnapshot {
    fn drop(self) {
        let SharedSnapshot { snapshot: _ } = self;
    }
}

impl Model for SharedSnapshot {
    ghost use Rattle.std.specs.Arc.{arc_value};
    ghost use Rattle.std.specs.Coded.{codes};
    ghost use Rattle.go_graph_core.specs.Workspaces.{coded_package};
    ghost use Rattle.go_names_core.specs.block_core.Blocks.{coded_blocks};
    ghost use Rattle.go_emit_core.specs.declared_core.codes.FaceCodes.{coded_face, coded_operand};
    ghost use Rattle.go_report_core.specs.summary_core.codes.SummaryCodes.{coded_summary};
    ghost use Rattle.go_emit_core.specs.package_core.PackagePartInputs.{coded_input};
    ghost use Rattle.go_snap_core.specs.Snapshots.{SnapshotModel};

    ghost Value = { SnapshotModel };

    ghost coded = { Prim.hlevel (codes, coded_package, coded_input, coded_blocks, coded_face, coded_operand, coded_summary) };

    ghost view = { λ s. arc_value s.snapshot };
}

impl SharedSnapshot {
    /// A snapshot, to be shared.
    ///
    /// # Errors
    ///
    /// `AllocError` where memory is wanting.
    pub fn new(alloc: Global, snapshot: Snapshot) -> Result<SharedSnapshot, AllocError>
        ensures { IfOk result (λ s. s ≡ snapshot) }
    {
        Ok(SharedSnapshot {
            snapshot: Arc::new(alloc, snapshot)?,
        })
    }

    /// The same snapshot once more. It takes no memory.
    ///
    /// # Errors
    ///
    /// `AllocError` where it has too many owners.
    pub fn share(&self) -> Result<SharedSnapshot, AllocError>
        ensures { IfOk result (λ s. s ≡ self.now) }
    {
        Ok(SharedSnapshot {
            snapshot: Arc::try_clone(&self.snapshot)?,
        })
    }

    /// The snapshot.
    pub fn get(&self) -> &Snapshot
        ensures { result.now ≡ self.now }
    {
        &self.snapshot
    }
}
