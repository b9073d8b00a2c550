//! Declarations of constants and variables outside functions.
ghost use Rattle.std.specs.Prelude.{◌≡◌, ◌++◌, OnOk, map};
ghost use Rattle.std.specs.List.{flat_map};
ghost use Rattle.go_tree_nodes.specs.Shapes.{shape_value, shape_value_line, shape_value_spec};
ghost use Rattle.go_expr_core.specs.Looks.{everywhere};
ghost use Rattle.go_stmt_core.specs.piece.Specifications.{spec_uses};
ghost use Rattle.go_stmt_core.specs.toplevel.Tops as tops;

use crate::piece::check_outer_spec;
use crate::toplevel::initial::note_initials;
use go_expr_core::{Exprs, Notes};
use go_tree_nodes::{ValueDecl, ValueKind, ValueLine, ValueSpec, ValueSpecs};
use std::alloc::{AllocError, Global};

// Notes what a specification has and breaks.
fn check_top_spec<E: Exprs>(
    env: &E,
    alloc: Global,
    kind: ValueKind,
    spec: &ValueSpec,
    notes: &mut Notes<E::Decl, E::Path>,
) -> Result<(), AllocError>
    ensures uses { OnOk result (notes.new.uses.items ≡ notes.old.uses.items ++ spec_uses (everywhere (E.types env.now) (E.names env.now) (E.literals env.now) (E.written env.now)) (shape_value_spec spec.now)) }
    ensures faults { OnOk result (notes.new.faults.items ≡ notes.old.faults.items ++ tops.top_spec_faults (everywhere (E.types env.now) (E.names env.now) (E.literals env.now) (E.written env.now)) kind (shape_value_spec spec.now)) }
{
    check_outer_spec(env, alloc, kind, spec, notes)?;
    note_initials(env, alloc, kind, spec, &mut notes.faults)
}

// Notes what the specifications of a group have and break.
fn check_lines<E: Exprs>(
    env: &E,
    alloc: Global,
    kind: ValueKind,
    lines: &[ValueLine],
    notes: &mut Notes<E::Decl, E::Path>,
) -> Result<(), AllocError>
    ensures uses { OnOk result (notes.new.uses.items ≡ notes.old.uses.items ++ flat_map (λ l. spec_uses (everywhere (E.types env.now) (E.names env.now) (E.literals env.now) (E.written env.now)) l.0) (map shape_value_line lines.now)) }
    ensures faults { OnOk result (notes.new.faults.items ≡ notes.old.faults.items ++ flat_map (λ l. tops.top_spec_faults (everywhere (E.types env.now) (E.names env.now) (E.literals env.now) (E.written env.now)) kind l.0) (map shape_value_line lines.now)) }
{
    for line in lines {
        check_top_spec(env, alloc, kind, &line.spec, notes)?;
    }
    Ok(())
}

/// Notes what the identifiers and calls of a declaration of constants or variables outside functions have, in order of their places, and
/// its faults: those of its specifications, and X1 at each initialiser of a variable that is not constant, be it refused or not. Such an
/// initialiser is a refused operand, and breaks no Y4. What names mean at the top of the file is what the environment says.
///
/// # Errors
///
/// `AllocError` where memory is wanting; then some may be noted.
pub fn check_value_decl<E: Exprs>(
    env: &E,
    alloc: Global,
    decl: &ValueDecl,
    notes: &mut Notes<E::Decl, E::Path>,
) -> Result<(), AllocError>
    ensures uses { OnOk result (notes.new.uses.items ≡ notes.old.uses.items ++ tops.value_decl_uses (everywhere (E.types env.now) (E.names env.now) (E.literals env.now) (E.written env.now)) (shape_value decl.now)) }
    ensures faults { OnOk result (notes.new.faults.items ≡ notes.old.faults.items ++ tops.value_decl_faults (everywhere (E.types env.now) (E.names env.now) (E.literals env.now) (E.written env.now)) (shape_value decl.now)) }
{
    match &decl.specs {
        ValueSpecs::One(spec) => check_top_spec(env, alloc, decl.kind, spec, notes),
        ValueSpecs::Group(_, lines, _) => check_lines(env, alloc, decl.kind, lines, notes),
    }
}
