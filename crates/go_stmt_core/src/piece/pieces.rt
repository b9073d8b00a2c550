//! Specifications, and statements that may stand in a header, of any form.
ghost use Rattle.std.specs.Prelude.{◌≡◌, ◌++◌, [], IfOk, OnOk};
ghost use Rattle.go_tree_nodes.specs.Shapes.{shape_simple, shape_value_spec};
ghost use Rattle.go_expr_core.specs.Looks.{everywhere};
ghost use Rattle.go_stmt_core.specs.piece.Specifications as specifications;
ghost use Rattle.go_stmt_core.specs.piece.Statements as statements;

use crate::piece::constants::check_constants;
use crate::piece::shorts::check_short;
use crate::piece::statements::{check_alone, check_assign, check_step, check_update};
use crate::piece::variables::{check_initials, check_variables};
use go_expr_core::operand_core::Operand;
use go_expr_core::{Exprs, Notes};
use go_tree_nodes::{Simple, ValueKind, ValueSpec};
use std::alloc::{AllocError, Global};

/// Notes what a specification of constants or variables has and breaks, and answers what each of its names stands for: a constant, a
/// variable, or none where it has no type.
///
/// Y7 of a constant lies at its expression, Y4 at the first name. The Go specification, "Constant declarations", "Variable
/// declarations".
///
/// # Errors
///
/// `AllocError` where memory is wanting, or a text has too many owners; then some may be noted.
pub fn check_spec<E: Exprs>(
    env: &E,
    alloc: Global,
    kind: ValueKind,
    spec: &ValueSpec,
    notes: &mut Notes<E::Decl, E::Path>,
) -> Result<Vec<Option<Operand<E::Type>>>, AllocError>
    ensures values { IfOk result (λ vs. vs.items ≡ specifications.spec_values (everywhere (E.types env.now) (E.names env.now) (E.literals env.now) (E.written env.now)) kind (shape_value_spec spec.now)) }
    ensures uses { OnOk result (notes.new.uses.items ≡ notes.old.uses.items ++ specifications.spec_uses (everywhere (E.types env.now) (E.names env.now) (E.literals env.now) (E.written env.now)) (shape_value_spec spec.now)) }
    ensures faults { OnOk result (notes.new.faults.items ≡ notes.old.faults.items ++ specifications.spec_faults (everywhere (E.types env.now) (E.names env.now) (E.literals env.now) (E.written env.now)) kind (shape_value_spec spec.now)) }
{
    match kind {
        ValueKind::Const => check_constants(env, alloc, spec, notes),
        ValueKind::Var => check_variables(env, alloc, spec, notes),
    }
}

/// Notes what a specification of constants or variables outside functions has and breaks, but for the rule of what is no constant.
///
/// As [`check_spec`] does, but that a value of a variable that is no constant is refused: it breaks no Y4 by what it is, and a call that
/// stands alone none by how many values it has. The Go specification, "Constant declarations", "Variable declarations".
///
/// # Errors
///
/// `AllocError` where memory is wanting, or a text has too many owners; then some may be noted.
pub fn check_outer_spec<E: Exprs>(
    env: &E,
    alloc: Global,
    kind: ValueKind,
    spec: &ValueSpec,
    notes: &mut Notes<E::Decl, E::Path>,
) -> Result<(), AllocError>
    ensures uses { OnOk result (notes.new.uses.items ≡ notes.old.uses.items ++ specifications.spec_uses (everywhere (E.types env.now) (E.names env.now) (E.literals env.now) (E.written env.now)) (shape_value_spec spec.now)) }
    ensures faults { OnOk result (notes.new.faults.items ≡ notes.old.faults.items ++ specifications.outer_faults (everywhere (E.types env.now) (E.names env.now) (E.literals env.now) (E.written env.now)) kind (shape_value_spec spec.now)) }
{
    match kind {
        ValueKind::Const => {
            check_constants(env, alloc, spec, notes)?;
            Ok(())
        }
        ValueKind::Var => check_initials(env, alloc, spec, notes),
    }
}

/// Notes what a statement has and breaks that may stand in a header. Of a short declaration no name is taken to be new:
/// [`crate::piece::check_short`] is told which are.
///
/// The Go specification, "Expression statements", "IncDec statements", "Assignment statements".
///
/// # Errors
///
/// `AllocError` where memory is wanting; then some may be noted.
pub fn check_simple<E: Exprs>(
    env: &E,
    alloc: Global,
    simple: &Simple,
    notes: &mut Notes<E::Decl, E::Path>,
) -> Result<(), AllocError>
    ensures uses { OnOk result (notes.new.uses.items ≡ notes.old.uses.items ++ statements.simple_uses (everywhere (E.types env.now) (E.names env.now) (E.literals env.now) (E.written env.now)) (shape_simple simple.now)) }
    ensures faults { OnOk result (notes.new.faults.items ≡ notes.old.faults.items ++ statements.simple_faults (everywhere (E.types env.now) (E.names env.now) (E.literals env.now) (E.written env.now)) [] (shape_simple simple.now)) }
{
    match simple {
        Simple::Expr(expr) => check_alone(env, alloc, expr, notes),
        Simple::Step(expr, _, _) => check_step(env, alloc, expr, notes),
        Simple::Assign(assignment) => check_assign(env, alloc, assignment, notes),
        Simple::Update(update) => check_update(env, alloc, update, notes),
        Simple::Define(definition) => {
            let names = &definition.names;
            check_short(env, alloc, names, &definition.values, &[], notes)?;
            Ok(())
        }
    }
}
