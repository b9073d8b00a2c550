//! Laws of whole workspaces, with nothing to run.
ghost use Rattle.go_snap_core.specs.whole_workspace.Laws.{InputsStay, OneWhole, PartsAreWhole, PartsComeInOrder};

use crate::whole_workspace::{check_is_local, imports_bind_theirs};

/// There is at most one answer to a workspace: the blocks of its packages, and what their checks give, follow from the trees of all files.
///
/// The Go specification, "Packages", "Import declarations".
pub fn one_whole()
    ensures { OneWhole }
{
    check_is_local();
    imports_bind_theirs();
}

/// Parts that are made each from its own input, of which none but those of the packages that it reaches is looked at, are what the trees of all
/// packages give.
///
/// The Go specification, "Packages", "Import declarations".
pub fn parts_are_whole()
    ensures { PartsAreWhole }
{
    check_is_local();
    imports_bind_theirs();
}

/// What the part of a package is made from stays as it is while the parts of other packages come: what its imports come to, and what the packages
/// tell that it reaches, is by the parts of these, which are there.
///
/// The Go specification, "Import declarations".
pub fn inputs_stay()
    ensures { InputsStay }
{}

/// Parts may be made in any order in which each package comes behind those that its imports come to: then a package has the parts of all that it
/// reaches as soon as it has those of its own imports, and parts that are right number by number are the parts of the workspace.
///
/// The Go specification, "Packages", "Import declarations".
pub fn parts_come_in_order()
    ensures { PartsComeInOrder }
{}
