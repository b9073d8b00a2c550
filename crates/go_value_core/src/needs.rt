//! What the declarations of a package need of one another.
ghost use Rattle.std.specs.Prelude.{◌≡◌, ◌++◌, Some, IfOk, OnOk, map};
ghost use Rattle.go_term_core.specs.decl_core.Shown.{decl_shown, form_shown};
ghost use Rattle.go_tree_nodes.specs.Shapes.{shape_value_spec};
ghost use Rattle.go_digraph_core.specs.needs.Needs.{rows_of};
ghost use Rattle.go_names_core.specs.scope_core.Laws.{denotes};
ghost use Rattle.go_names_core.specs.scope_core.Scopes.{denoted_of};
ghost use Rattle.go_env_core.specs.Scenes.{scene_shown};
ghost use Rattle.go_value_core.specs.Initial as initial;
ghost use Rattle.go_value_core.specs.Package as package_values;

use crate::idents::add_needed;
use crate::placed::PlacedDecl;
use crate::specs::expr_of;
use go_env_core::Scene;
use go_names_core::block_core::DeclRef;
use go_names_core::scope_core::{InScope, Scopes};
use go_term_core::decl_core::DeclForm;
use go_tree_nodes::{Ident, ValueKind, ValueSpec};
use std::alloc::{AllocError, Global};

// The identifiers that a name of a specification needs, by its number.
fn initial_idents<'a>(
    alloc: Global,
    spec: &'a ValueSpec,
    at: usize,
) -> Result<Vec<&'a Ident>, AllocError>
    ensures { IfOk result (λ xs. map (λ x. x.now) xs.items ≡ initial.initial_idents (shape_value_spec spec.now) at) }
{
    let mut found = Vec::new(alloc);
    if let Some(expr) = expr_of(spec, at) {
        add_needed(expr, &mut found)?;
    }
    Ok(found)
}

// Those that a constant or a variable needs: a variable with a written type needs none.
fn value_idents<'a>(
    alloc: Global,
    kind: ValueKind,
    spec: &'a ValueSpec,
    at: usize,
) -> Result<Vec<&'a Ident>, AllocError>
    ensures { IfOk result (λ xs. map (λ x. x.now) xs.items ≡ package_values.value_idents kind (shape_value_spec spec.now).type_expr (shape_value_spec spec.now) at) }
{
    match kind {
        ValueKind::Const => initial_idents(alloc, spec, at),
        ValueKind::Var => match &spec.type_expr {
            None => initial_idents(alloc, spec, at),
            Some(_) => Ok(Vec::new(alloc)),
        },
    }
}

// Those that a declaration needs.
fn form_idents<'a>(alloc: Global, form: DeclForm<'a>) -> Result<Vec<&'a Ident>, AllocError>
    ensures { IfOk result (λ xs. map (λ x. x.now) xs.items ≡ package_values.form_idents (form_shown form.entry)) }
{
    match form {
        DeclForm::Value(kind, spec, at) => value_idents(alloc, kind, spec, at),
        DeclForm::Type(_) => Ok(Vec::new(alloc)),
        DeclForm::Func(_) => Ok(Vec::new(alloc)),
    }
}

// The package's own declaration that something in scope is, if it is one.
fn own_of(found: InScope<'_>) -> Option<DeclRef>
    ensures { result ≡ package_values.own_decl (Some (denoted_of found.entry)) }
{
    match found {
        InScope::Package(decl) => Some(decl),
        InScope::Universe(_) => None,
        InScope::File(_) => None,
        InScope::Local(_) => None,
    }
}

// The package's own declaration that a name means, if it means one.
fn own_decl(scopes: &Scopes<'_>, name: &str) -> Option<DeclRef>
    ensures { result ≡ package_values.own_decl (denotes scopes.now name.now) }
{
    match scopes.find(name) {
        None => None,
        Some(found) => own_of(found),
    }
}

// The position of what a name means, where that is a declaration of the package.
fn name_needs(scene: &Scene<'_>, scopes: &Scopes<'_>, name: &str) -> Option<usize>
    ensures { package_values.some_position result ≡ package_values.position_in (scene_shown scene.now).written (package_values.own_decl (denotes scopes.now name.now)) }
{
    match own_decl(scopes, name) {
        None => None,
        Some(decl) => scene.written.position(decl),
    }
}

// Adds a position, if there is one.
fn add_need(row: &mut Vec<usize>, need: Option<usize>) -> Result<(), AllocError>
    ensures { OnOk result (row.new.items ≡ row.old.items ++ package_values.some_position need) }
{
    match need {
        None => Ok(()),
        Some(at) => {
            row.push(at)?;
            Ok(())
        }
    }
}

// The positions of the declarations that a declaration needs.
fn decl_needs(
    alloc: Global,
    scene: &Scene<'_>,
    placed: &PlacedDecl<'_>,
) -> Result<Vec<usize>, AllocError>
    ensures { IfOk result (λ row. row.items ≡ package_values.decl_needs (scene_shown scene.now) (package_values.placed_shown placed.now)) }
{
    let idents = form_idents(alloc, placed.decl.form)?;
    let scopes = Scopes::begin(alloc, scene.blocks, placed.file);
    let mut row = Vec::new(alloc);
    for ident in &idents {
        add_need(&mut row, name_needs(scene, &scopes, ident.name.as_str()))?;
    }
    Ok(row)
}

/// For each declaration of a package the positions in `scene.written` of those that it needs. Each initialiser is walked once for each name
/// that it is the expression of.
///
/// # Errors
///
/// `AllocError` where memory is wanting.
pub fn package_needs(
    alloc: Global,
    scene: &Scene<'_>,
    decls: &[PlacedDecl<'_>],
) -> Result<Vec<Vec<usize>>, AllocError>
    ensures { IfOk result (λ rows. rows_of rows.items ≡ package_values.package_needs (scene_shown scene.now) (map package_values.placed_shown decls.now)) }
{
    let mut rows = Vec::with_capacity(alloc, decls.len())?;
    for placed in decls {
        rows.push(decl_needs(alloc, scene, placed)?)?;
    }
    Ok(rows)
}
