//! Laws of what is told of a file that stands alone, with nothing to run.
ghost use Rattle.go_workspace_laws.specs.FileLaws.{CleanIsFaultless, SnapshotsHaveWhatIsTold, TextsHaveSnapshots};

use go_graph_core::parse_core::{one_rule, one_tree};
use go_snap_core::whole_workspace::parts_are_whole;
use govisd_resolve::one_input;

/// What `resolve` takes a text for is what each snapshot has of the workspace whose one file it is: of a file with a tree and a name of its package the
/// same outcome for each occurrence and the same faults in the same order; of another the faults of the package and of the text.
///
/// The Go specification, "Packages", "Declarations and scope".
pub fn snapshots_have_what_is_told()
    ensures { SnapshotsHaveWhatIsTold }
{
    one_tree();
    one_rule();
    one_input();
}

/// `resolve` ends with a clean report of a text exactly where a snapshot of the workspace whose one file it is has no fault.
pub fn clean_is_faultless()
    ensures { CleanIsFaultless }
{
    snapshots_have_what_is_told();
}

/// There is such a workspace with a snapshot for each text that `resolve` takes for anything.
pub fn texts_have_snapshots()
    ensures { TextsHaveSnapshots }
{
    parts_are_whole();
}
