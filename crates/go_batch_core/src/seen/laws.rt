//! Laws of the inputs of the packages of a workspace, with nothing to run.
ghost use Rattle.go_batch_core.specs.seen.Local.{InputsAreLocal};

use go_snap_core::whole_workspace::{check_is_local, imports_bind_theirs};

/// Over what any packages tell, each path once, the package of an input of a workspace is what its input gives alone: where all that it reaches is among
/// them, and none of them is the package itself.
///
/// The Go specification, "Packages", "Import declarations".
pub fn inputs_are_local()
    ensures { InputsAreLocal }
{
    check_is_local();
    imports_bind_theirs();
}
