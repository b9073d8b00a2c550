//! What a local stands for as a name.
ghost use Rattle.std.specs.Prelude.{◌≡◌, IfOk, option_map};
ghost use Rattle.go_summary_core.specs.declared_core.Faces.{operand_shown};
ghost use Rattle.go_body_core.specs.env_core.Found.{found_local};
ghost use Rattle.go_body_core.specs.env_core.Scenes.{scene_shown};

use crate::at_place::local::{OpenLocal, lend_value};
use go_body_core::env_core::Scene;
use go_expr_core::denote_core::Found;
use go_summary_core::handle_core::{Decl, DeclSite, SignatureRef, TypeRef};
use go_term_core::{LocalPlace, MemberPlace};
use std::alloc::AllocError;

/// What the name of a local of a file stands for.
///
/// # Errors
///
/// `AllocError` where a constant text has too many owners.
pub(crate) fn found_local<'p>(
    scene: &Scene<'p>,
    file: usize,
    local: &OpenLocal<'p>,
) -> Result<Found<TypeRef<'p>, SignatureRef<'p>, Decl<'p>>, AllocError>
    ensures { IfOk result (λ found. found ≡ found_local (scene_shown scene.now) file local.now.offset (option_map operand_shown local.now.value.now)) }
{
    let place = MemberPlace::Local(LocalPlace {
        file,
        offset: local.offset,
    });
    let decl = Decl::at(DeclSite::InFile(scene.home.path(), place));
    Ok(Found::Value(decl, lend_value(local.value)?))
}
