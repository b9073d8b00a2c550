//! What stands left of `=`.
ghost use Rattle.std.specs.Prelude.{◌≡◌, ◌++◌, IfOk, OnOk};
ghost use Rattle.go_tree_nodes.specs.Shapes.{shape, shape_exprs};
ghost use Rattle.go_expr_core.specs.Looks.{everywhere};
ghost use Rattle.go_expr_core.specs.Lists.{is_list};
ghost use Rattle.go_stmt_core.specs.piece.Targets as targets;

use crate::statement::{Target, target_of};
use go_expr_core::denote_core::Stand;
use go_expr_core::local_core::is_blank_target;
use go_expr_core::{Exprs, Notes, check_expr, is_list, note_member, start};
use go_tree_nodes::Expr;
use std::alloc::{AllocError, Global};

// One left side, in a list of several or not.
fn check_target<E: Exprs>(
    env: &E,
    alloc: Global,
    several: bool,
    expr: &Expr,
    notes: &mut Notes<E::Decl, E::Path>,
) -> Result<Target<E::Type>, AllocError>
    ensures target { IfOk result (λ t. t ≡ targets.target (everywhere (E.types env.now) (E.names env.now) (E.literals env.now) (E.written env.now)) several (shape expr.now)) }
    ensures uses { OnOk result (notes.new.uses.items ≡ notes.old.uses.items ++ targets.target_uses (everywhere (E.types env.now) (E.names env.now) (E.literals env.now) (E.written env.now)) (shape expr.now)) }
    ensures faults { OnOk result (notes.new.faults.items ≡ notes.old.faults.items ++ targets.target_faults (everywhere (E.types env.now) (E.names env.now) (E.literals env.now) (E.written env.now)) several (shape expr.now)) }
{
    if is_blank_target(expr) {
        return Ok(Target::Blank);
    }
    let denoted = check_expr(env, alloc, Stand::Value, expr, notes)?;
    note_member(&mut notes.faults, start(expr), several, &denoted)?;
    Ok(target_of(denoted, !several))
}

/// Checks the left sides of an assignment.
pub(crate) fn check_targets<E: Exprs>(
    env: &E,
    alloc: Global,
    exprs: &go_tree_nodes::Exprs,
    notes: &mut Notes<E::Decl, E::Path>,
) -> Result<Vec<Target<E::Type>>, AllocError>
    ensures targets { IfOk result (λ ts. ts.items ≡ targets.targets (everywhere (E.types env.now) (E.names env.now) (E.literals env.now) (E.written env.now)) (is_list (shape_exprs exprs.now)) (shape_exprs exprs.now)) }
    ensures uses { OnOk result (notes.new.uses.items ≡ notes.old.uses.items ++ targets.targets_uses (everywhere (E.types env.now) (E.names env.now) (E.literals env.now) (E.written env.now)) (shape_exprs exprs.now)) }
    ensures faults { OnOk result (notes.new.faults.items ≡ notes.old.faults.items ++ targets.targets_faults (everywhere (E.types env.now) (E.names env.now) (E.literals env.now) (E.written env.now)) (is_list (shape_exprs exprs.now)) (shape_exprs exprs.now)) }
{
    let several = is_list(exprs);
    let mut all = Vec::new(alloc);
    let first = check_target(env, alloc, several, &exprs.first, notes)?;
    all.push(first)?;
    for next in &exprs.more {
        let target = check_target(env, alloc, several, &next.expr, notes)?;
        all.push(target)?;
    }
    Ok(all)
}
