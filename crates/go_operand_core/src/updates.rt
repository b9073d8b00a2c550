//! `x op= y`, `x++` and `x--`.
ghost use Rattle.std.specs.Prelude.{◌≡◌, IfOk};
ghost use Rattle.go_operand_core.specs.Updates as updates;

use crate::operators::{binary, refused_binary, value};
use crate::types::{Operand, TypeLooks, ValueType};
use go_constant_core::Constant;
use go_token_core::Operator;
use go_token_core::text_core::Rule;
use std::alloc::{AllocError, Global};

fn operator_of(operator: Operator) -> Operator
    ensures { result ≡ updates.operator_of operator }
{
    match operator {
        Operator::PlusAssign => Operator::Plus,
        Operator::MinusAssign => Operator::Minus,
        Operator::StarAssign => Operator::Star,
        Operator::SlashAssign => Operator::Slash,
        Operator::PercentAssign => Operator::Percent,
        Operator::AndAssign => Operator::And,
        Operator::OrAssign => Operator::Or,
        Operator::CaretAssign => Operator::Caret,
        Operator::ShiftLeftAssign => Operator::ShiftLeft,
        Operator::ShiftRightAssign => Operator::ShiftRight,
        Operator::AndNotAssign => Operator::AndNot,
        _ => operator,
    }
}

fn broken<T: Drop>(made: Result<Operand<T>, Rule>) -> Option<Rule>
    ensures { result ≡ updates.broken made }
{
    match made {
        Ok(_) => None,
        Err(rule) => Some(rule),
    }
}

fn update_by<E: TypeLooks>(
    env: &E,
    alloc: Global,
    operator: Operator,
    target: Operand<E::Type>,
    operand: Operand<E::Type>,
) -> Result<Option<Rule>, AllocError>
    ensures { IfOk result (λ r. r ≡ updates.update_by (E.types env.now) operator target operand) }
{
    if let Some(rule) = refused_binary(operator) {
        return Ok(Some(rule));
    }
    if !target.addressable {
        return Ok(Some(Rule::Y3));
    }
    Ok(broken(binary(env, alloc, operator, target, operand)?))
}

/// The rule that `x op= y` breaks, if it breaks one; the operator is the token, as `+=`.
///
/// X1 for bit operators and shifts, whatever stands there; then Y3 where the target is not addressable; then what `x op y` breaks. The Go
/// specification, "Assignment statements": an assignment operation behaves like x = x op (y) but evaluates x only once.
///
/// # Errors
///
/// `AllocError` where memory is wanting.
pub fn update<E: TypeLooks>(
    env: &E,
    alloc: Global,
    operator: Operator,
    target: Operand<E::Type>,
    operand: Operand<E::Type>,
) -> Result<Option<Rule>, AllocError>
    ensures { IfOk result (λ r. r ≡ updates.update (E.types env.now) operator target operand) }
{
    update_by(env, alloc, operator_of(operator), target, operand)
}

/// The rule that `x++` or `x--` breaks, if it breaks one: Y3 where the target is not addressable or not over int.
///
/// The Go specification, "IncDec statements": these increment or decrement their operands by the untyped constant 1; as with an
/// assignment, the operand must be addressable.
///
/// # Errors
///
/// `AllocError` where memory is wanting.
pub fn increment<E: TypeLooks>(
    env: &E,
    alloc: Global,
    target: Operand<E::Type>,
) -> Result<Option<Rule>, AllocError>
    ensures { IfOk result (λ r. r ≡ updates.increment (E.types env.now) target) }
{
    let one = value(ValueType::UntypedInt, Some(Constant::Int(1)));
    update_by(env, alloc, Operator::Plus, target, one)
}
