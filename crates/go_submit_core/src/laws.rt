//! Laws of published batches, with nothing to run.
ghost use Rattle.go_submit_core.specs.Laws.{BatchesReplace, LastTrees, OneWorker, PublishedModules, PublishedPaths, SubmissionsReplace};

use go_snap_core::one_snapshot;

/// A batch replaces the packages of its modules and leaves all others.
pub fn batches_replace()
    ensures { BatchesReplace }
{}

/// A submission puts its tree in the place of its module's packages.
pub fn submissions_replace()
    ensures { SubmissionsReplace }
{}

/// Where trees are submitted one after another, the files of each path are those of the last tree in whose module the path lies; where there is none,
/// they stay. So what is published is the last tree of each module.
pub fn last_trees()
    ensures { LastTrees }
{}

/// What published batches have of each module is the last tree of it, of all batches in order, and nothing where none was submitted: where no other module
/// has the path. Each path has the files of the last tree in whose module it lies.
pub fn published_trees()
    ensures paths { PublishedPaths }
    ensures modules { PublishedModules }
{}

/// One worker gives one snapshot of the packages of a workspace.
pub fn one_worker()
    ensures { OneWorker }
{
    one_snapshot();
}
