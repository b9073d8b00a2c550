//! What threads may take and see: modules with their packages, inputs, parts, snapshots and objects. The lemmas are in `proofs/Crossing`; a function
//! that gives such values to threads cites them.
#![tactic(auto)]

ghost use Rattle.go_thread_core.specs.Threads.{InputsCross, KeptSnapshotsCross, ObjectsCross, PartsCross, SharedSnapshotsCross, SinglePartsCross, SnapshotsCross, WorkspacesCross};

use go_block_core::graph_core::Workspace;
use go_object_core::Object;
use go_report_core::answer::Site;
use go_snap_core::{SharedSnapshot, Snapshot};
use go_submit_core::history::KeptSnapshot;
use go_submit_core::package_core::{Part, PartInput, Parts};

// Asks that values of a type may go to a thread, and be seen by several.
fn is_shared_by_threads<T: Send + Sync>() {}

/// Workspaces, with the trees of their files.
pub fn workspaces_cross()
    ensures { WorkspacesCross }
{
    is_shared_by_threads::<Workspace>();
}

/// What parts are made from.
pub fn inputs_cross()
    ensures { InputsCross }
{
    is_shared_by_threads::<PartInput>();
}

/// A part.
pub fn single_parts_cross()
    ensures { SinglePartsCross }
{
    is_shared_by_threads::<Part>();
}

/// Parts by the numbers of their packages.
pub fn parts_cross()
    ensures { PartsCross }
{
    is_shared_by_threads::<Parts>();
}

/// Snapshots.
pub fn snapshots_cross()
    ensures { SnapshotsCross }
{
    is_shared_by_threads::<Snapshot>();
}

/// Snapshots that several hold.
pub fn shared_snapshots_cross()
    ensures { SharedSnapshotsCross }
{
    is_shared_by_threads::<SharedSnapshot>();
}

/// Snapshots that are kept by pieces.
pub fn kept_snapshots_cross()
    ensures { KeptSnapshotsCross }
{
    is_shared_by_threads::<KeptSnapshot>();
}

/// Objects, with the declarations that their code refers to.
pub fn objects_cross()
    ensures { ObjectsCross }
{
    is_shared_by_threads::<Object<Site>>();
}
