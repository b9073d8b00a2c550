//! Laws of whole runs of the service, with nothing to run.
ghost use Rattle.go_headline_laws.specs.separation.Laws.{ModulesStayApart, OwnPaths, PublishedAreTaken, PublishedTrees, ReplaysStayApart, RunsAreSound, RunsStayApart, SourcesAreWell, SubmissionsAreOwn, TreesAreWell};

/// Of the modules that are taken no two overlap: each step keeps that, and so it is behind each run and each replay that begins with an empty service.
pub fn modules_stay_apart()
    ensures step { ModulesStayApart }
    ensures runs { RunsStayApart }
    ensures replays { ReplaysStayApart }
{}

/// Each module of which a tree is published is taken, whether a session holds it or not.
pub fn published_are_taken()
    ensures { PublishedAreTaken }
{}

/// A path inside a taken module lies in no other module of which a tree is published.
pub fn own_paths()
    ensures { OwnPaths }
{}

/// What a session submits is of the module that it holds.
pub fn submissions_are_own()
    ensures { SubmissionsAreOwn }
{}

/// Each published snapshot is the one that one worker gives of all that is published up to it.
pub fn runs_are_sound()
    ensures { RunsAreSound }
{}

/// Each tree that is published is a workspace, and so are the packages of all that is published up to a batch. The trees of the events that a caller has
/// are workspaces: see `are_handed_in`.
pub fn trees_are_well()
    ensures trees { TreesAreWell }
    ensures sources { SourcesAreWell }
{}

/// What is published inside a module that is taken is the last tree of it that was built, and nothing where none was.
pub fn published_trees()
    ensures { PublishedTrees }
{}
