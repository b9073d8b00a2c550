//! Laws of existence, and that there is no second, with nothing to run.
ghost use Rattle.go_exists_laws.specs.Packages.{EachInputHasOnePart, EachPackageHasOneCheck};
ghost use Rattle.go_exists_laws.specs.Texts.{EachTextHasAContent, TextsMakeAWorkspace};
ghost use Rattle.go_exists_laws.specs.Workspaces.{EachWorkspaceHasOneSnapshot, TextsMakeASnapshot};

use go_package_core::one_check;
use go_package_core::package_part::one_part;
use go_submit_core::one_worker;
use go_workspace_laws::existence::{
    inputs_have_parts, packages_have_checks, workspaces_have_snapshots,
};

/// Each text in UTF-8 that fits into memory has a content: the tree of its tokens, or a fault of its tokens or of its tree.
///
/// The Go specification, "Source code representation".
pub fn each_text_has_a_content()
    ensures { EachTextHasAContent }
{}

/// Texts, put as files into packages, in order of path and of name, make a workspace of which each file is read.
///
/// The Go specification, "Packages", "Source file organization".
pub fn texts_make_a_workspace()
    ensures { TextsMakeAWorkspace }
{}

/// Each package of placed trees has exactly one check, whatever other packages have.
///
/// The Go specification, "Packages", "Declarations and scope", "Package initialization".
pub fn each_package_has_one_check()
    ensures { EachPackageHasOneCheck }
{
    packages_have_checks();
    one_check();
}

/// Each input of placed trees has exactly one part.
///
/// The Go specification, "Packages", "Import declarations".
pub fn each_input_has_one_part()
    ensures { EachInputHasOnePart }
{
    inputs_have_parts();
    one_part();
}

/// Each workspace has exactly one snapshot: parts of its packages and faults, as one worker gives them. So there is a snapshot of whatever texts are put
/// as files into packages.
///
/// The Go specification, "Packages", "Program initialization and execution".
pub fn each_workspace_has_one_snapshot()
    ensures workspaces { EachWorkspaceHasOneSnapshot }
    ensures texts { TextsMakeASnapshot }
{
    workspaces_have_snapshots();
    one_worker();
}
