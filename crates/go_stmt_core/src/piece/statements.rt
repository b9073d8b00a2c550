//! Statements that may stand in a header, and conditions.
ghost use Rattle.std.specs.Prelude.{◌≡◌, ◌++◌, None, IfOk, OnOk};
ghost use Rattle.go_tree_nodes.specs.Shapes.{shape, shape_exprs};
ghost use Rattle.go_expr_core.specs.denote_core.declared.things.Stand.TheVariants as stands;
ghost use Rattle.go_expr_core.specs.Looks.{everywhere};
ghost use Rattle.go_expr_core.specs.Denoting.{denoted};
ghost use Rattle.go_expr_core.specs.Uses.{uses};
ghost use Rattle.go_expr_core.specs.Faults.{faults};
ghost use Rattle.go_stmt_core.specs.piece.Values as values;
ghost use Rattle.go_stmt_core.specs.piece.Targets as targets;
ghost use Rattle.go_stmt_core.specs.piece.Statements as statements;

use crate::piece::given::check_list;
use crate::piece::starts::list_start;
use crate::piece::targets::check_targets;
use crate::statement::{
    assignment_rule, condition_rule, increment_rule, statement_rule, update_rule,
};
use go_expr_core::denote_core::{Denoted, Stand, argument_of};
use go_expr_core::{Exprs, Notes, check_called, check_expr, check_operand, note_fault, start};
use go_tree_nodes::{Assignment, Expr, Update};
use std::alloc::{AllocError, Global};

// What an expression that stands for a statement denotes, and what it calls, if it is a call.
#[derive(Drop)]
struct Alone<T, S, D> {
    callee: Option<Denoted<T, S, D>>,
    denoted: Denoted<T, S, D>,
}

// Checks an expression that is no call.
fn check_other<E: Exprs>(
    env: &E,
    alloc: Global,
    expr: &Expr,
    notes: &mut Notes<E::Decl, E::Path>,
) -> Result<Alone<E::Type, E::Signature, E::Decl>, AllocError>
    ensures callee { IfOk result (λ a. a.callee ≡ None) }
    ensures denoted { IfOk result (λ a. a.denoted ≡ denoted (everywhere (E.types env.now) (E.names env.now) (E.literals env.now) (E.written env.now)) stands.«Value» (shape expr.now)) }
    ensures uses { OnOk result (notes.new.uses.items ≡ notes.old.uses.items ++ uses (everywhere (E.types env.now) (E.names env.now) (E.literals env.now) (E.written env.now)) stands.«Value» (shape expr.now)) }
    ensures faults { OnOk result (notes.new.faults.items ≡ notes.old.faults.items ++ faults (everywhere (E.types env.now) (E.names env.now) (E.literals env.now) (E.written env.now)) stands.«Value» (shape expr.now)) }
{
    let denoted = check_expr(env, alloc, Stand::Value, expr, notes)?;
    Ok(Alone {
        callee: None,
        denoted,
    })
}

// Checks an expression, and keeps what it calls, if it is a call.
fn check_with_callee<E: Exprs>(
    env: &E,
    alloc: Global,
    expr: &Expr,
    notes: &mut Notes<E::Decl, E::Path>,
) -> Result<Alone<E::Type, E::Signature, E::Decl>, AllocError>
    ensures callee { IfOk result (λ a. a.callee ≡ statements.callee_of (everywhere (E.types env.now) (E.names env.now) (E.literals env.now) (E.written env.now)) (shape expr.now)) }
    ensures denoted { IfOk result (λ a. a.denoted ≡ denoted (everywhere (E.types env.now) (E.names env.now) (E.literals env.now) (E.written env.now)) stands.«Value» (shape expr.now)) }
    ensures uses { OnOk result (notes.new.uses.items ≡ notes.old.uses.items ++ uses (everywhere (E.types env.now) (E.names env.now) (E.literals env.now) (E.written env.now)) stands.«Value» (shape expr.now)) }
    ensures faults { OnOk result (notes.new.faults.items ≡ notes.old.faults.items ++ faults (everywhere (E.types env.now) (E.names env.now) (E.literals env.now) (E.written env.now)) stands.«Value» (shape expr.now)) }
{
    match expr {
        Expr::Call(call) => {
            let callee = check_expr(env, alloc, Stand::Callee, &call.callee, notes)?;
            let denoted = check_called(env, alloc, &callee, call.open, &call.args, notes)?;
            Ok(Alone {
                callee: Some(callee),
                denoted,
            })
        }
        Expr::Paren(_, inner, _) => check_with_callee(env, alloc, inner, notes),
        Expr::Literal(_) => check_other(env, alloc, expr, notes),
        Expr::StructLiteral(_) => check_other(env, alloc, expr, notes),
        Expr::Integer(_, _)
        | Expr::Text(_)
        | Expr::Name(_)
        | Expr::Unary(_, _, _)
        | Expr::Binary(_)
        | Expr::Select(_) => check_other(env, alloc, expr, notes),
    }
}

/// Checks an expression that stands for a statement.
pub(crate) fn check_alone<E: Exprs>(
    env: &E,
    alloc: Global,
    expr: &Expr,
    notes: &mut Notes<E::Decl, E::Path>,
) -> Result<(), AllocError>
    ensures uses { OnOk result (notes.new.uses.items ≡ notes.old.uses.items ++ uses (everywhere (E.types env.now) (E.names env.now) (E.literals env.now) (E.written env.now)) stands.«Value» (shape expr.now)) }
    ensures faults { OnOk result (notes.new.faults.items ≡ notes.old.faults.items ++ statements.alone_faults (everywhere (E.types env.now) (E.names env.now) (E.literals env.now) (E.written env.now)) (shape expr.now)) }
{
    let alone = check_with_callee(env, alloc, expr, notes)?;
    let rule = statement_rule(&alone.callee, &alone.denoted);
    note_fault(&mut notes.faults, start(expr), rule)
}

/// Checks an expression before `++` or `--`.
pub(crate) fn check_step<E: Exprs>(
    env: &E,
    alloc: Global,
    expr: &Expr,
    notes: &mut Notes<E::Decl, E::Path>,
) -> Result<(), AllocError>
    ensures uses { OnOk result (notes.new.uses.items ≡ notes.old.uses.items ++ uses (everywhere (E.types env.now) (E.names env.now) (E.literals env.now) (E.written env.now)) stands.«Value» (shape expr.now)) }
    ensures faults { OnOk result (notes.new.faults.items ≡ notes.old.faults.items ++ statements.step_faults (everywhere (E.types env.now) (E.names env.now) (E.literals env.now) (E.written env.now)) (shape expr.now)) }
{
    let denoted = check_operand(env, alloc, Stand::Value, expr, notes)?;
    let rule = increment_rule(env, alloc, argument_of(denoted))?;
    note_fault(&mut notes.faults, start(expr), rule)
}

/// Checks an assignment.
pub(crate) fn check_assign<E: Exprs>(
    env: &E,
    alloc: Global,
    assignment: &Assignment,
    notes: &mut Notes<E::Decl, E::Path>,
) -> Result<(), AllocError>
    ensures uses { OnOk result (notes.new.uses.items ≡ notes.old.uses.items ++ statements.assign_uses (everywhere (E.types env.now) (E.names env.now) (E.literals env.now) (E.written env.now)) (shape_exprs assignment.now.targets) (shape_exprs assignment.now.values)) }
    ensures faults { OnOk result (notes.new.faults.items ≡ notes.old.faults.items ++ statements.assign_faults (everywhere (E.types env.now) (E.names env.now) (E.literals env.now) (E.written env.now)) (shape_exprs assignment.now.targets) (shape_exprs assignment.now.values)) }
{
    let targets = check_targets(env, alloc, &assignment.targets, notes)?;
    let given = check_list(env, alloc, &assignment.values, notes)?;
    let rule = assignment_rule(env, alloc, &targets, given.is_unknown, &given.values)?;
    note_fault(&mut notes.faults, list_start(&assignment.targets), rule)
}

/// Checks an operation with `=`.
pub(crate) fn check_update<E: Exprs>(
    env: &E,
    alloc: Global,
    update: &Update,
    notes: &mut Notes<E::Decl, E::Path>,
) -> Result<(), AllocError>
    ensures uses { OnOk result (notes.new.uses.items ≡ notes.old.uses.items ++ statements.update_uses (everywhere (E.types env.now) (E.names env.now) (E.literals env.now) (E.written env.now)) (shape update.now.target) (shape update.now.value)) }
    ensures faults { OnOk result (notes.new.faults.items ≡ notes.old.faults.items ++ statements.update_faults (everywhere (E.types env.now) (E.names env.now) (E.literals env.now) (E.written env.now)) (shape update.now.target) update.now.operator (shape update.now.value)) }
{
    let target = check_operand(env, alloc, Stand::Value, &update.target, notes)?;
    let value = check_operand(env, alloc, Stand::Value, &update.value, notes)?;
    let operator = update.operator;
    let left = argument_of(target);
    let right = argument_of(value);
    let rule = update_rule(env, alloc, operator, left, right)?;
    note_fault(&mut notes.faults, start(&update.target), rule)
}

/// Notes what the condition of an `if` or a `for` has and breaks. The Go specification, "If statements", "For statements".
///
/// # Errors
///
/// `AllocError` where memory is wanting; then some may be noted.
pub fn check_condition<E: Exprs>(
    env: &E,
    alloc: Global,
    condition: &Expr,
    notes: &mut Notes<E::Decl, E::Path>,
) -> Result<(), AllocError>
    ensures uses { OnOk result (notes.new.uses.items ≡ notes.old.uses.items ++ uses (everywhere (E.types env.now) (E.names env.now) (E.literals env.now) (E.written env.now)) stands.«Value» (shape condition.now)) }
    ensures faults { OnOk result (notes.new.faults.items ≡ notes.old.faults.items ++ statements.condition_faults (everywhere (E.types env.now) (E.names env.now) (E.literals env.now) (E.written env.now)) (shape condition.now)) }
{
    let denoted = check_expr(env, alloc, Stand::Value, condition, notes)?;
    let rule = condition_rule(env, &denoted);
    note_fault(&mut notes.faults, start(condition), rule)
}
