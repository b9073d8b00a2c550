//! Laws of existence, with nothing to run.
ghost use Rattle.go_workspace_laws.specs.existence.Laws.{ChainsHaveEnds, FaultsSettle, FilesAreReported, InputsHaveParts, LoopsAreDecided, PackagesHaveChecks, PackagesHaveTypes, RowsHaveValues, TypesExist, WorkspacesHaveParts, WorkspacesHaveSnapshots};

use go_emit_core::package_core::values_are_as_written;
use go_snap_core::whole_workspace::{check_is_local, imports_bind_theirs};

/// Each chain of numbers has an end, or none.
pub fn chains_have_ends()
    ensures { ChainsHaveEnds }
{}

/// There is a table of values of what looks at what it needs alone.
pub fn rows_have_values<V: Drop>()
    ensures { RowsHaveValues V }
{}

/// Whether what a node needs leads back to it is decided.
pub fn loops_are_decided()
    ensures { LoopsAreDecided }
{}

/// Faults settle beside what occurrences have, and something is reported of each file.
pub fn faults_settle()
    ensures settle { FaultsSettle }
    ensures report { FilesAreReported }
{}

/// There are types of all that is written of them, and so each package has types, with their faults.
///
/// The Go specification, "Type declarations", "Alias declarations", "Underlying types".
pub fn types_exist()
    ensures written { TypesExist }
    ensures packages { PackagesHaveTypes }
{}

/// Each package of placed trees has a check, whatever other packages have: its types, what its declarations are, and of each file what its occurrences
/// have, its faults and its locals.
///
/// The Go specification, "Packages", "Declarations and scope", "Package initialization".
pub fn packages_have_checks()
    ensures { PackagesHaveChecks }
{
    values_are_as_written();
}

/// Each input of placed trees has a part.
///
/// The Go specification, "Packages", "Import declarations".
pub fn inputs_have_parts()
    ensures { InputsHaveParts }
{
    values_are_as_written();
}

/// Each workspace has parts of its assembled packages, each made from its own input, and a snapshot: there is an answer to each workspace.
///
/// The Go specification, "Packages", "Import declarations", "Program initialization and execution".
pub fn workspaces_have_snapshots()
    ensures parts { WorkspacesHaveParts }
    ensures snapshots { WorkspacesHaveSnapshots }
{
    values_are_as_written();
    check_is_local();
    imports_bind_theirs();
}
