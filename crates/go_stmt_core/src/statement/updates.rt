//! `x op= y`, `x++` and `x--`, of what their expressions denote.
ghost use Rattle.std.specs.Prelude.{◌≡◌, IfOk};
ghost use Rattle.go_stmt_core.specs.statement.Updates as updates;

use go_constant_core::text_core::Rule;
use go_expr_core::denote_core::Argument;
use go_expr_core::operand_core::{Operand, TypeLooks, increment, update};
use go_tree_nodes::token_core::Operator;
use std::alloc::{AllocError, Global};

fn bits_rule(operator: Operator) -> Option<Rule>
    ensures { result ≡ updates.bits_rule operator }
{
    match operator {
        Operator::AndAssign
        | Operator::OrAssign
        | Operator::CaretAssign
        | Operator::ShiftLeftAssign
        | Operator::ShiftRightAssign
        | Operator::AndNotAssign => Some(Rule::X1),
        _ => None,
    }
}

fn update_value<E: TypeLooks>(
    env: &E,
    alloc: Global,
    operator: Operator,
    target: Operand<E::Type>,
    operand: Argument<E::Type>,
) -> Result<Option<Rule>, AllocError>
    ensures { IfOk result (λ rule. rule ≡ updates.update_value (E.types env.now) operator target operand) }
{
    match operand {
        Argument::Value(operand) => update(env, alloc, operator, target, operand),
        Argument::Refused | Argument::Void => Ok(bits_rule(operator)),
    }
}

/// The rule that `x op= y` breaks as a statement, if it breaks one; the operator is the token, as `+=`.
///
/// Of two values, what [`go_expr_core::operand_core::update`] says. Beside an operand that is refused, or no single value, which has a rule of
/// its own, X1 for a bit operator or a shift, and else none. The Go specification, "Assignment statements".
///
/// # Errors
///
/// `AllocError` where memory is wanting.
pub fn update_rule<E: TypeLooks>(
    env: &E,
    alloc: Global,
    operator: Operator,
    target: Argument<E::Type>,
    operand: Argument<E::Type>,
) -> Result<Option<Rule>, AllocError>
    ensures { IfOk result (λ rule. rule ≡ updates.update_rule (E.types env.now) operator target operand) }
{
    match target {
        Argument::Value(target) => update_value(env, alloc, operator, target, operand),
        Argument::Refused | Argument::Void => Ok(bits_rule(operator)),
    }
}

/// The rule that `x++` or `x--` breaks as a statement, if it breaks one: what [`go_expr_core::operand_core::increment`] says of a value. What is
/// refused, or no single value, which has a rule of its own, breaks none. The Go specification, "IncDec statements".
///
/// # Errors
///
/// `AllocError` where memory is wanting.
pub fn increment_rule<E: TypeLooks>(
    env: &E,
    alloc: Global,
    target: Argument<E::Type>,
) -> Result<Option<Rule>, AllocError>
    ensures { IfOk result (λ rule. rule ≡ updates.increment_rule (E.types env.now) target) }
{
    match target {
        Argument::Value(target) => increment(env, alloc, target),
        Argument::Refused | Argument::Void => Ok(None),
    }
}
