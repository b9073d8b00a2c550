//! Laws of snapshots, with nothing to run.
ghost use Rattle.go_snap_core.specs.Laws.{FaultsDiffer, FaultsLieInFiles, NoFaultNoRefusal, OneSnapshot, RefusalsAreFaults, UnassembledFaultsLieInTexts};

use crate::whole_workspace::{check_is_local, imports_bind_theirs};
use go_emit_core::package_core::one_part;

/// There is at most one snapshot of a workspace: of each package what its part is made from and what it has, and all faults, follow from the trees
/// of all files. So `join` gives what `compile` gives.
///
/// The Go specification, "Packages", "Import declarations".
pub fn one_snapshot()
    ensures { OneSnapshot }
{
    check_is_local();
    imports_bind_theirs();
    one_part();
}

/// Each fault of a snapshot lies in a file of its workspace, by the numbers of its package and of its file. Where the files of a package do not
/// assemble, it stands in the text of its file, or at its end.
pub fn faults_lie_in_files()
    ensures files { FaultsLieInFiles }
    ensures texts { UnassembledFaultsLieInTexts }
{}

/// No two faults of a snapshot are the same.
pub fn faults_differ()
    ensures { FaultsDiffer }
{}

/// What an occurrence of a file is refused by is a fault of this file. Where there is no fault, each package is assembled and each occurrence of its
/// files has a declaration.
///
/// The Go specification, "Declarations and scope", "Packages".
pub fn refusals_are_faults()
    ensures faults { RefusalsAreFaults }
    ensures none { NoFaultNoRefusal }
{}
