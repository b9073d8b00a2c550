//! Declarations of types.
ghost use Rattle.std.specs.Prelude.{◌≡◌, ◌++◌, OnOk, map};
ghost use Rattle.std.specs.List.{flat_map};
ghost use Rattle.go_tree_nodes.specs.Shapes.{shape_type_decl, shape_type_line, shape_type_spec};
ghost use Rattle.go_expr_core.specs.Looks.{everywhere};
ghost use Rattle.go_stmt_core.specs.toplevel.Tops as tops;

use go_expr_core::{Exprs, Notes, check_type};
use go_inline_core::repeated_params;
use go_tree_nodes::{TypeDecl, TypeLine, TypeSpec, TypeSpecs};
use std::alloc::{AllocError, Global};

// Notes what a specification has and breaks.
fn check_type_spec<E: Exprs>(
    env: &E,
    alloc: Global,
    spec: &TypeSpec,
    notes: &mut Notes<E::Decl, E::Path>,
) -> Result<(), AllocError>
    ensures uses { OnOk result (notes.new.uses.items ≡ notes.old.uses.items ++ tops.type_spec_uses (everywhere (E.types env.now) (E.names env.now) (E.literals env.now) (E.written env.now)) (shape_type_spec spec.now)) }
    ensures faults { OnOk result (notes.new.faults.items ≡ notes.old.faults.items ++ tops.type_spec_faults (shape_type_spec spec.now)) }
{
    check_type(env, alloc, &spec.type_expr, &mut notes.uses)?;
    let repeated = repeated_params(alloc, &spec.type_expr)?;
    notes.faults.extend_from_slice(&repeated)?;
    Ok(())
}

// Notes what the specifications of a group have and break.
fn check_lines<E: Exprs>(
    env: &E,
    alloc: Global,
    lines: &[TypeLine],
    notes: &mut Notes<E::Decl, E::Path>,
) -> Result<(), AllocError>
    ensures uses { OnOk result (notes.new.uses.items ≡ notes.old.uses.items ++ flat_map (λ l. tops.type_spec_uses (everywhere (E.types env.now) (E.names env.now) (E.literals env.now) (E.written env.now)) l.0) (map shape_type_line lines.now)) }
    ensures faults { OnOk result (notes.new.faults.items ≡ notes.old.faults.items ++ flat_map (λ l. tops.type_spec_faults l.0) (map shape_type_line lines.now)) }
{
    for line in lines {
        check_type_spec(env, alloc, &line.spec, notes)?;
    }
    Ok(())
}

/// Notes what the identifiers of a declaration of types have, in order of their places, and B1 of the parameters of its interface types'
/// methods. What else is amiss in types is asked for a package as a whole (`go_report_core::type_faults`).
///
/// # Errors
///
/// `AllocError` where memory is wanting; then some may be noted.
pub fn check_type_decl<E: Exprs>(
    env: &E,
    alloc: Global,
    decl: &TypeDecl,
    notes: &mut Notes<E::Decl, E::Path>,
) -> Result<(), AllocError>
    ensures uses { OnOk result (notes.new.uses.items ≡ notes.old.uses.items ++ tops.type_decl_uses (everywhere (E.types env.now) (E.names env.now) (E.literals env.now) (E.written env.now)) (shape_type_decl decl.now)) }
    ensures faults { OnOk result (notes.new.faults.items ≡ notes.old.faults.items ++ tops.type_decl_faults (shape_type_decl decl.now)) }
{
    match &decl.specs {
        TypeSpecs::One(spec) => check_type_spec(env, alloc, spec, notes),
        TypeSpecs::Group(_, lines, _) => check_lines(env, alloc, lines, notes),
    }
}
