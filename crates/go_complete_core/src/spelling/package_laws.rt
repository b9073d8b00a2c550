//! Laws of contexts in checked packages, with nothing to run.
ghost use Rattle.go_complete_core.specs.spelling.Laws.{ContextsDecide, ContextsStayInPackages};

use crate::spelling::{
    file_initialisers_stay, outer_types_in_files_stay, package_bodies_stay, types_stay,
};

/// What is answered for a file of a checked package is, behind what its imports have, what the context of each identifier gives for its own
/// spelling, by what names mean where the identifier stands.
///
/// The Go specification, "Declarations and scope".
pub fn checked_packages_have_contexts()
    ensures { ContextsDecide }
{}

/// Where two packages differ in the spelling of one identifier that is used, and each has been checked, this identifier stands in the same context
/// in both: at one number of all that is answered for its file each package has what the rule of this context gives for its spelling. So it is in
/// initialisers, in types outside functions and in bodies, and through chains of declarations of the package too: what stands in front of a
/// dot denotes what it denoted. In an initialiser or a body another spelling leaves the types of the package as they were, and in a body also
/// what its declarations are.
///
/// The Go specification, "Declarations and scope", "Selectors", "Package initialization".
pub fn checked_packages_keep_contexts()
    ensures { ContextsStayInPackages }
{
    types_stay();
    file_initialisers_stay();
    outer_types_in_files_stay();
    package_bodies_stay();
}
