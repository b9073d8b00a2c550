//! Constants that are defined through themselves.
ghost use Rattle.std.specs.Prelude.{◌≡◌, IfOk, length, map};
ghost use Rattle.go_term_core.specs.decl_core.Shown.{form_shown};
ghost use Rattle.go_typexpr_core.specs.entry.Outlines.{outline_shown};
ghost use Rattle.go_env_core.specs.Scenes.{scene_shown};
ghost use Rattle.go_value_core.specs.Package as package_values;
ghost use Rattle.go_value_core.specs.Package.{AreThroughThemselves, placed_decls, placed_shown};
ghost use Rattle.go_value_core.specs.mirrors.Kept.{constant_flags};

use crate::back::leading_back;
use crate::needs::package_needs;
use crate::placed::{PlacedDecl, placed_decls};
use go_env_core::Scene;
use go_stmt_core::inline_core::InlineTypes;
use go_term_core::decl_core::{DeclForm, Outline};
use go_tree_nodes::ValueKind;
use std::alloc::{AllocError, Global};

// Whether a declaration declares a constant.
fn is_constant(form: DeclForm<'_>) -> bool
    ensures { result ≡ package_values.declares_constant (form_shown form.entry) }
{
    match form {
        DeclForm::Value(ValueKind::Const, _, _) => true,
        DeclForm::Value(ValueKind::Var, _, _) => false,
        DeclForm::Type(_) => false,
        DeclForm::Func(_) => false,
    }
}

// The flags of constants stay.
fn of_constants(
    alloc: Global,
    flags: &[bool],
    decls: &[PlacedDecl<'_>],
) -> Result<Vec<bool>, AllocError>
    requires { length flags.now ≡ length decls.now }
    ensures { IfOk result (λ kept. kept.items ≡ constant_flags flags.now (map placed_shown decls.now)) }
{
    let mut kept = Vec::with_capacity(alloc, decls.len())?;
    for (at, placed) in decls.iter().enumerate() {
        kept.push(flags[at] && is_constant(placed.decl.form))?;
    }
    Ok(kept)
}

/// For each declaration of a package outside functions, by its place in `scene.written`, whether it is a constant that is defined through
/// itself: one whose needs lead back to it. A constant whose needs lead to others that are defined through themselves has no type, and is
/// none of these.
///
/// `outlines` has an outline for each file of the package in order of name, and `inlines` the types that are written in the initialisers of
/// each. The Go specification, "Constant declarations".
///
/// # Errors
///
/// `AllocError` where memory is wanting.
pub fn through_itself<'p>(
    alloc: Global,
    scene: &Scene<'p>,
    inlines: &'p [InlineTypes],
    outlines: &[Outline<'p>],
) -> Result<Vec<bool>, AllocError>
    requires files { length inlines.now ≡ length outlines.now }
    requires written { length (scene_shown scene.now).written ≡ length (placed_decls inlines.now (map outline_shown outlines.now)) }
    ensures { IfOk result (λ flags. AreThroughThemselves (scene_shown scene.now) (placed_decls inlines.now (map outline_shown outlines.now)) flags.items) }
{
    let decls = placed_decls(alloc, inlines, outlines)?;
    let needs = package_needs(alloc, scene, &decls)?;
    let flags = leading_back(alloc, &needs)?;
    of_constants(alloc, &flags, &decls)
}
