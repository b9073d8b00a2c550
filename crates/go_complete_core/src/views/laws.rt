//! Laws of what names rest on in other packages, with nothing to run.
ghost use Rattle.go_complete_core.specs.views.Laws.{ImportsDecide};

use go_snap_core::whole_workspace::imports_bind_theirs;

/// What other packages show counts of those alone that the imports of a package come to: over the types of all packages that it reaches, each identifier
/// of its files stands in the same context, and the context's rule says the same of each name, be it known what all of them show or what these do.
///
/// The Go specification, "Import declarations", "Qualified identifiers".
pub fn imports_decide()
    ensures { ImportsDecide }
{
    imports_bind_theirs();
}
