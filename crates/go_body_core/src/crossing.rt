//! What threads see of a package while its bodies are checked, and what they give back. The lemmas are in `proofs/Crossing`; a function that gives such
//! values to threads cites them.

ghost use Rattle.go_body_core.specs.crossing.Threads.{FacesAreSeen, InlineTypesAreSeen, LocalsGo, ScenesAreSeen, TreesAreSeen, UsesGo};

use crate::{BodyUse, Local};
use go_declared_core::Face;
use go_env_core::Scene;
use go_handle_core::{SignatureRef, TypeRef};
use go_inline_core::InlineTypes;
use go_tree_nodes::TopDecl;

// Asks that values of a type may be seen by several threads.
fn is_seen<T: Sync>() {}

// Asks that values of a type may go to a thread.
fn goes<T: Send>() {}

/// Declarations of a file.
pub fn trees_are_seen()
    ensures { TreesAreSeen }
{
    is_seen::<TopDecl>();
}

/// What is known of a package.
pub fn scenes_are_seen()
    ensures { ScenesAreSeen }
{
    is_seen::<Scene<'_>>();
}

/// The types that are written inside functions.
pub fn inline_types_are_seen()
    ensures { InlineTypesAreSeen }
{
    is_seen::<InlineTypes>();
}

/// What the declarations of a package are.
pub fn faces_are_seen()
    ensures { FacesAreSeen }
{
    is_seen::<Face<TypeRef<'_>, SignatureRef<'_>>>();
}

/// What occurrences have.
pub fn uses_go()
    ensures { UsesGo }
{
    goes::<BodyUse<'_>>();
}

/// The locals of functions.
pub fn locals_go()
    ensures { LocalsGo }
{
    goes::<Local<'_>>();
}
