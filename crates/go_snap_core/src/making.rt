//! The snapshot of a workspace.
ghost use Rattle.std.specs.Prelude.{◌≡◌, IfOk};
ghost use Rattle.go_graph_core.specs.Workspaces.{IsWorkspace};
ghost use Rattle.go_snap_core.specs.whole_workspace.Inputs.{AreParts};
ghost use Rattle.go_snap_core.specs.make.Keeping.{AreKept};
ghost use Rattle.go_snap_core.specs.Snapshots.{IsSnapshot};

use crate::fault::{PlacedFault, faults_of};
use crate::make::{parts_again, parts_of};
use crate::snapshot::Snapshot;
use crate::whole_workspace::{check_is_local, imports_bind_theirs};
use go_emit_core::package_core::Parts;
use go_graph_core::Workspace;
use std::alloc::{AllocError, Global};

/// A snapshot that was made over an earlier one.
#[derive(Drop)]
pub struct Recompiled {
    /// The snapshot: it is the one that `compile` gives.
    pub snapshot: Snapshot,
    /// Of each package, by its number, whether its part is the earlier snapshot's own.
    pub kept: Vec<bool>,
}

// The parts of the assembled packages of a workspace, by their numbers, with all faults.
fn with_faults(
    alloc: Global,
    workspace: &Workspace,
    parts: Parts,
) -> Result<(Parts, Vec<PlacedFault>), AllocError>
    requires well { IsWorkspace workspace.now }
    requires parts { AreParts workspace.now parts }
    ensures parts { IfOk result (λ made. made.0 ≡ parts) }
    ensures whole { IfOk result (λ made. IsSnapshot workspace.now made.0 made.1.items) }
{
    check_is_local();
    imports_bind_theirs();
    let faults = faults_of(alloc, workspace, parts.as_slice())?;
    Ok((parts, faults))
}

// What the snapshot of a workspace has beside it: the parts of its assembled packages, by their numbers, and all faults.
fn made_of(alloc: Global, workspace: &Workspace) -> Result<(Parts, Vec<PlacedFault>), AllocError>
    ensures { IfOk result (λ made. IsSnapshot workspace.now made.0 made.1.items) }
{
    let parts = parts_of(alloc, workspace)?;
    let made = with_faults(alloc, workspace, parts)?;
    Ok(made)
}

// The same over an earlier snapshot, and of each package whether its part is kept.
fn made_again(
    alloc: Global,
    workspace: &Workspace,
    earlier: &Snapshot,
) -> Result<(Parts, Vec<PlacedFault>, Vec<bool>), AllocError>
    ensures whole { IfOk result (λ made. IsSnapshot workspace.now made.0 made.1.items) }
    ensures kept { IfOk result (λ made. AreKept earlier.now.parts made.0 made.2.items) }
{
    let sources = earlier.sources();
    let (parts, kept) = parts_again(alloc, workspace, sources, earlier.parts())?;
    let (parts, faults) = with_faults(alloc, workspace, parts)?;
    Ok((parts, faults, kept))
}

/// The snapshot of a workspace: each assembled package is compiled once, behind those that it imports.
///
/// The Go specification, "Packages", "Import declarations".
///
/// # Errors
///
/// `AllocError` where memory is wanting.
pub fn compile(alloc: Global, workspace: &Workspace) -> Result<Snapshot, AllocError>
    ensures sources { IfOk result (λ s. s.sources ≡ workspace.now) }
    ensures whole { IfOk result (λ s. IsSnapshot workspace.now s.parts s.faults) }
{
    let sources = workspace.copy(alloc)?;
    let (parts, faults) = made_of(alloc, &sources)?;
    Ok(Snapshot::new(sources, parts, faults))
}

/// The snapshot of a workspace, over an earlier one of any workspace: what `compile` gives, since a workspace has one snapshot (`one_snapshot`). A
/// package whose input is the one that its part was made from keeps that part, which is shared: nothing of it is checked again. Its new input is made
/// to be compared, and then let go. What a package tells that is checked again is compared once with what it told: where that is the same, as after an
/// edit of a body, those that import it keep their parts.
///
/// The Go specification, "Packages", "Import declarations".
///
/// # Errors
///
/// `AllocError` where memory is wanting. The earlier snapshot is as it was in any case.
pub fn recompile(
    alloc: Global,
    workspace: &Workspace,
    earlier: &Snapshot,
) -> Result<Recompiled, AllocError>
    ensures sources { IfOk result (λ r. r.snapshot.sources ≡ workspace.now) }
    ensures whole { IfOk result (λ r. IsSnapshot workspace.now r.snapshot.parts r.snapshot.faults) }
    ensures kept { IfOk result (λ r. AreKept earlier.now.parts r.snapshot.parts r.kept.items) }
{
    let current = workspace.copy(alloc)?;
    let (parts, faults, kept) = made_again(alloc, &current, earlier)?;
    Ok(Recompiled {
        snapshot: Snapshot::new(current, parts, faults),
        kept,
    })
}
