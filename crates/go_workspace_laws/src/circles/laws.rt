//! Laws of types and aliases that reach themselves, with nothing to run.
ghost use Rattle.go_workspace_laws.specs.circles.Laws.{AliasesStandForNames, CirclesAreFaults, CirclesAreFaultsInAll};

use go_emit_core::package_core::loops_are_faults;
use go_snap_core::whole_workspace::{check_is_local, imports_bind_theirs};

/// Behind `=` of each alias that a package of a workspace declares stands the name of a type: no pointer type and no struct type is written there.
///
/// The Go specification, "Alias declarations".
pub fn aliases_stand_for_names()
    ensures { AliasesStandForNames }
{}

/// The types and aliases of a package that reach themselves, by what is written of them outside pointers and interfaces, are exactly those that
/// have the fault of it at their names: in each part of a workspace, by the names that are written, through types and aliases of the package alike.
/// No path through other packages leads back, since what a package reaches does not reach it.
///
/// The Go specification, "Type declarations", "Alias declarations", "Import declarations".
pub fn circles_are_faults()
    ensures { CirclesAreFaults }
{
    loops_are_faults();
    check_is_local();
    imports_bind_theirs();
}

/// So it is of each assembled package of a workspace, as the trees of all files say: where it is checked among all other packages, of which some may
/// reach it and use its types.
///
/// The Go specification, "Type declarations", "Alias declarations", "Import declarations".
pub fn circles_are_faults_in_all()
    ensures { CirclesAreFaultsInAll }
{
    loops_are_faults();
    check_is_local();
    imports_bind_theirs();
}
