//! What the declarations of a package are.
ghost use Rattle.std.specs.Prelude.{◌≡◌, IfOk, length, map};
ghost use Rattle.go_typexpr_core.specs.entry.Outlines.{outline_shown};
ghost use Rattle.go_digraph_core.specs.needs.Needs.{AreValues};
ghost use Rattle.go_declared_core.specs.Faces.{TheFace};
ghost use Rattle.go_env_core.specs.Scenes.{scene_shown};
ghost use Rattle.go_value_core.specs.Package.{declared_face, package_needs, placed_decls, placed_shown};

use crate::stage::Stage;
use go_decl_core::Outline;
use go_declared_core::Face;
use go_digraph_core::needs::values_of;
use go_env_core::{Recall, Scene, TypesOf};
use go_handle_core::{SignatureRef, TypeRef};
use go_inline_core::InlineTypes;
use go_value_core::{PlacedDecl, package_needs, placed_decls};
use std::alloc::{AllocError, Global};
use std::marker::Brand;

// What these declarations of a package are. What is decided of two types for one of them is known for those behind it.
fn values_in<'p, K: TypesOf>(
    alloc: Global,
    scene: &Scene<'p>,
    decls: &[PlacedDecl<'p>],
) -> Result<Vec<Option<Face<TypeRef<'p>, SignatureRef<'p>>>>, AllocError>
    requires table { scene.now.types.now ≡ K.types }
    requires written { length (scene_shown scene.now).written ≡ length decls.now }
    ensures { IfOk result (λ table. AreValues TheFace (package_needs (scene_shown scene.now) (map placed_shown decls.now)) (declared_face (scene_shown scene.now) (map placed_shown decls.now)) table.items) }
{
    let needs = package_needs(alloc, scene, decls)?;
    let recall: Recall<'p, K> = Recall::new(alloc);
    let stage = Stage {
        scene,
        decls,
        recall: &recall,
    };
    values_of(alloc, &stage, &needs)
}

/// What the declarations of a package outside functions are, by their places in `scene.written`: a constant, and a variable without a
/// written type, is what its initialiser makes it, and all others are as they are written. None for a declaration whose needs lead back to
/// themselves.
///
/// `outlines` has an outline for each file of the package in order of name, and `inlines` the types that are written in the initialisers of
/// each. Each initialiser is checked once for each name that it is the expression of: a call that gives values to several names, once for
/// each of them, so time grows with the number of these names times the length of the call. Names are looked up once, and what is decided of
/// two declared types is remembered.
///
/// The Go specification, "Constant declarations", "Variable declarations", "Package initialization".
///
/// # Errors
///
/// `AllocError` where memory is wanting.
pub fn package_values<'p>(
    alloc: Global,
    scene: &Scene<'p>,
    inlines: &'p [InlineTypes],
    outlines: &[Outline<'p>],
) -> Result<Vec<Option<Face<TypeRef<'p>, SignatureRef<'p>>>>, AllocError>
    requires files { length inlines.now ≡ length outlines.now }
    requires written { length (scene_shown scene.now).written ≡ length (placed_decls inlines.now (map outline_shown outlines.now)) }
    ensures { IfOk result (λ table. AreValues TheFace (package_needs (scene_shown scene.now) (placed_decls inlines.now (map outline_shown outlines.now))) (declared_face (scene_shown scene.now) (placed_decls inlines.now (map outline_shown outlines.now))) table.items) }
{
    let decls = placed_decls(alloc, inlines, outlines)?;
    values_in::<Brand>(alloc, scene, &decls)
}
