//! Laws of the objects of a workspace, with nothing to run.
ghost use Rattle.go_workspace_laws.specs.ObjectLaws.{DeclarationsAreReached, ObjectsAreOfPartsAlone, ObjectsFollowInputs};
ghost use Rattle.go_workspace_laws.specs.TreeLaws.{ObjectsAreOfTrees, TellingIsOfTrees};

use go_emit_core::one_object;
use go_snap_core::whole_workspace::{check_is_local, imports_bind_theirs, one_whole};

/// What an occurrence of a package has in a file is declared in the package itself or in one that it reaches by imports, or is such a package. So are the
/// fields and the methods that it selects, whichever types lead to them.
///
/// The Go specification, "Packages", "Import declarations", "Selectors".
pub fn declarations_are_reached()
    ensures { DeclarationsAreReached }
{
    check_is_local();
    imports_bind_theirs();
}

/// The object of a package, as its snapshot makes it over what all packages tell, is the one that its part gives alone: over what the packages tell that
/// its package reaches, and what it tells itself. So parts of equal inputs have equal objects, each in its own snapshot.
///
/// The Go specification, "Packages", "Import declarations".
pub fn objects_are_of_parts_alone()
    ensures alone { ObjectsAreOfPartsAlone }
    ensures inputs { ObjectsFollowInputs }
{
    check_is_local();
    imports_bind_theirs();
    one_object();
}

/// The objects of a workspace are made over what the check of all its trees gives: what packages tell are the types and the faces that this check
/// gives each of them among all others, and the names of a package come to in its code what they come to over these.
///
/// The Go specification, "Packages", "Declarations and scope".
pub fn objects_are_of_trees()
    ensures told { TellingIsOfTrees }
    ensures objects { ObjectsAreOfTrees }
{
    one_whole();
}
