//! Binary operators.
ghost use Rattle.std.specs.Prelude.{◌≡◌, IfOk};
ghost use Rattle.go_operand_core.specs.Operators as operators;

use crate::assignments::{common, comparable};
use crate::types::{Operand, TypeLooks, ValueType};
use crate::values::{basic_under, is_over};
use go_constant_core::Constant;
use go_term_core::Basic;
use go_token_core::Operator;
use go_token_core::text_core::Rule;
use std::alloc::{AllocError, Global};

/// What a binary operator is for.
#[derive(Clone, Copy)]
pub enum Group {
    /// `&&` and `||`.
    Logic,
    /// `+`.
    Sum,
    /// `-`, `*`, `/` and `%`.
    Arithmetic,
    /// `==` and `!=`.
    Equality,
    /// `<`, `<=`, `>` and `>=`.
    Order,
    /// Bit operators and shifts, which are outside the profile.
    Bits,
}

fn group_of(operator: Operator) -> Group
    ensures { result ≡ operators.group operator }
{
    match operator {
        Operator::LogicalAnd | Operator::LogicalOr => Group::Logic,
        Operator::Plus => Group::Sum,
        Operator::Minus | Operator::Star | Operator::Slash | Operator::Percent => Group::Arithmetic,
        Operator::Equal | Operator::NotEqual => Group::Equality,
        Operator::Less | Operator::LessEqual | Operator::Greater | Operator::GreaterEqual =>
            Group::Order,
        _ => Group::Bits,
    }
}

fn divides(operator: Operator) -> bool
    ensures { result ≡ operators.divides operator }
{
    matches!(operator, Operator::Slash | Operator::Percent)
}

fn takes(group: Group, basic: Option<Basic>) -> bool
    ensures { result ≡ operators.takes group basic }
{
    match group {
        Group::Logic => is_over(Basic::Bool, basic),
        Group::Sum | Group::Order => is_over(Basic::Int, basic) || is_over(Basic::Text, basic),
        Group::Arithmetic => is_over(Basic::Int, basic),
        Group::Equality | Group::Bits => false,
    }
}

fn is_zero(constant: &Option<Constant>) -> bool
    ensures { result ≡ operators.is_some_zero constant.now }
{
    match constant {
        Some(constant) => go_constant_core::is_zero(constant),
        None => false,
    }
}

fn out_of_range<T: Drop>(value: ValueType<T>) -> Rule
    ensures { result ≡ operators.out_of_range value }
{
    match value {
        ValueType::Typed(_) => Rule::Y7,
        ValueType::UntypedInt | ValueType::UntypedText | ValueType::UntypedBool | ValueType::Nil =>
            Rule::X1,
    }
}

pub(crate) fn value<T: Drop>(value_type: ValueType<T>, constant: Option<Constant>) -> Operand<T>
    ensures { result ≡ operators.value value_type constant }
{
    Operand {
        value_type,
        constant,
        addressable: false,
    }
}

pub(crate) fn computed<T: Drop>(
    value_type: ValueType<T>,
    constant: Option<Constant>,
) -> Result<Operand<T>, Rule>
    ensures { result ≡ operators.computed value_type constant }
{
    match constant {
        None => Err(out_of_range(value_type)),
        Some(constant) => Ok(value(value_type, Some(constant))),
    }
}

fn with_constants<T: Drop>(
    alloc: Global,
    value_type: ValueType<T>,
    operator: Operator,
    a: &Option<Constant>,
    b: &Option<Constant>,
) -> Result<Result<Operand<T>, Rule>, AllocError>
    ensures { IfOk result (λ r. r ≡ operators.with_constants value_type operator a.now b.now) }
{
    match a {
        None => Ok(Ok(value(value_type, None))),
        Some(x) => match b {
            None => Ok(Ok(value(value_type, None))),
            Some(y) => Ok(computed(value_type, go_constant_core::binary(alloc, operator, x, y)?)),
        },
    }
}

fn arithmetic<E: TypeLooks>(
    env: &E,
    alloc: Global,
    operator: Operator,
    value_type: Option<ValueType<E::Type>>,
    a: &Option<Constant>,
    b: &Option<Constant>,
) -> Result<Result<Operand<E::Type>, Rule>, AllocError>
    ensures { IfOk result (λ r. r ≡ operators.arithmetic (E.types env.now) operator value_type a.now b.now) }
{
    let Some(value_type) = value_type else {
        return Ok(Err(Rule::Y3));
    };
    if !takes(group_of(operator), basic_under(env, &value_type)) {
        return Ok(Err(Rule::Y3));
    }
    if divides(operator) && is_zero(b) {
        return Ok(Err(Rule::Y7));
    }
    with_constants(alloc, value_type, operator, a, b)
}

fn ordered<E: TypeLooks>(
    env: &E,
    alloc: Global,
    operator: Operator,
    value_type: Option<ValueType<E::Type>>,
    a: &Option<Constant>,
    b: &Option<Constant>,
) -> Result<Result<Operand<E::Type>, Rule>, AllocError>
    ensures { IfOk result (λ r. r ≡ operators.ordered (E.types env.now) operator value_type a.now b.now) }
{
    let Some(value_type) = value_type else {
        return Ok(Err(Rule::Y3));
    };
    if !takes(group_of(operator), basic_under(env, &value_type)) {
        return Ok(Err(Rule::Y3));
    }
    with_constants(alloc, ValueType::UntypedBool, operator, a, b)
}

fn equated<T: Drop>(
    alloc: Global,
    operator: Operator,
    compares: bool,
    a: &Option<Constant>,
    b: &Option<Constant>,
) -> Result<Result<Operand<T>, Rule>, AllocError>
    ensures { IfOk result (λ r. r ≡ operators.equated operator compares a.now b.now) }
{
    if !compares {
        return Ok(Err(Rule::Y3));
    }
    with_constants(alloc, ValueType::UntypedBool, operator, a, b)
}

/// What a binary operator makes of two operands, or the rule that they break.
///
/// By what lies under the types, `<` and its kin and `+` take int and string, other arithmetic int, `&&` and `||` bool; both operands have
/// identical types after an untyped one took the other's. `==` and `!=` take operands of which one is assignable to the other's type.
/// Comparisons give an untyped boolean, the others a value of the operands' type. The value is constant where both operands are.
///
/// The rule is X1 for bit operators and shifts, and where an untyped constant is out of range; Y7 where the divisor is a constant 0, and
/// where a typed constant is out of range; Y3 where the operands do not fit, and then no other. The Go specification, "Operators",
/// "Arithmetic operators", "Comparison operators", "Logical operators", "Constant expressions".
///
/// # Errors
///
/// `AllocError` where memory is wanting.
pub fn binary<E: TypeLooks>(
    env: &E,
    alloc: Global,
    operator: Operator,
    a: Operand<E::Type>,
    b: Operand<E::Type>,
) -> Result<Result<Operand<E::Type>, Rule>, AllocError>
    ensures { IfOk result (λ r. r ≡ operators.binary_operand (E.types env.now) operator a b) }
{
    match group_of(operator) {
        Group::Bits => Ok(Err(Rule::X1)),
        Group::Logic | Group::Sum | Group::Arithmetic => {
            let value_type = common(env, alloc, a.value_type, b.value_type)?;
            arithmetic(env, alloc, operator, value_type, &a.constant, &b.constant)
        }
        Group::Order => {
            let value_type = common(env, alloc, a.value_type, b.value_type)?;
            ordered(env, alloc, operator, value_type, &a.constant, &b.constant)
        }
        Group::Equality => {
            let compares = comparable(env, alloc, &a.value_type, &b.value_type)?;
            equated(alloc, operator, compares, &a.constant, &b.constant)
        }
    }
}

/// The rule that a binary operator breaks beside an operand that is refused: X1 for bit operators and shifts, which are outside the
/// profile whatever they stand between; else none.
pub fn refused_binary(operator: Operator) -> Option<Rule>
    ensures { result ≡ operators.refused_binary operator }
{
    match group_of(operator) {
        Group::Bits => Some(Rule::X1),
        Group::Logic | Group::Sum | Group::Arithmetic | Group::Order | Group::Equality => None,
    }
}
