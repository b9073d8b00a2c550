//! Unary operators.
ghost use Rattle.std.specs.Prelude.{◌≡◌, IfOk};
ghost use Rattle.go_operand_core.specs.Prefixes as prefixes;

use crate::operators::{computed, value};
use crate::types::{Operand, TypeForm, TypeLooks, ValueType};
use crate::values::{basic_under, is_over};
use go_constant_core::Constant;
use go_term_core::Basic;
use go_token_core::Operator;
use go_token_core::text_core::Rule;
use std::alloc::{AllocError, Global};

/// What a unary operator is for.
#[derive(Clone, Copy)]
pub enum Prefix {
    /// `+` and `-`.
    Sign,
    /// `!`.
    Negation,
    /// `*`.
    Indirection,
    /// `&`.
    Address,
    /// `^`, which is outside the profile.
    Bits,
}

fn prefix_of(operator: Operator) -> Prefix
    ensures { result ≡ prefixes.prefix operator }
{
    match operator {
        Operator::Plus | Operator::Minus => Prefix::Sign,
        Operator::Not => Prefix::Negation,
        Operator::Star => Prefix::Indirection,
        Operator::And => Prefix::Address,
        _ => Prefix::Bits,
    }
}

fn signed<T: Drop>(
    operator: Operator,
    value_type: ValueType<T>,
    constant: &Option<Constant>,
) -> Result<Operand<T>, Rule>
    ensures { result ≡ prefixes.signed operator value_type constant.now }
{
    match constant {
        None => Ok(value(value_type, None)),
        Some(constant) => computed(value_type, go_constant_core::unary(operator, constant)),
    }
}

fn pointed<T: Drop>(form: TypeForm<T>) -> Result<Operand<T>, Rule>
    ensures { result ≡ prefixes.pointed form }
{
    match form {
        TypeForm::Pointer(t) => Ok(Operand {
            value_type: ValueType::Typed(t),
            constant: None,
            addressable: true,
        }),
        TypeForm::Nothing | TypeForm::Basic(_) | TypeForm::Struct | TypeForm::Interface => Err(
            Rule::Y3,
        ),
    }
}

fn indirection<E: TypeLooks>(
    env: &E,
    value_type: &ValueType<E::Type>,
) -> Result<Operand<E::Type>, Rule>
    ensures { result ≡ prefixes.indirection (E.types env.now) value_type.now }
{
    match value_type {
        ValueType::Typed(t) => pointed(env.form(t)),
        ValueType::UntypedInt | ValueType::UntypedText | ValueType::UntypedBool | ValueType::Nil =>
            Err(Rule::Y3),
    }
}

fn address<E: TypeLooks>(
    env: &E,
    alloc: Global,
    may: bool,
    value_type: &ValueType<E::Type>,
) -> Result<Result<Operand<E::Type>, Rule>, AllocError>
    ensures { IfOk result (λ r. r ≡ prefixes.address (E.types env.now) may value_type.now) }
{
    match value_type {
        ValueType::Typed(t) => {
            if !may {
                return Ok(Err(Rule::Y3));
            }
            let pointer = env.pointer_to(alloc, t)?;
            Ok(Ok(value(ValueType::Typed(pointer), None)))
        }
        ValueType::UntypedInt | ValueType::UntypedText | ValueType::UntypedBool | ValueType::Nil =>
            Ok(Err(Rule::Y3)),
    }
}

fn signed_over<E: TypeLooks>(
    env: &E,
    basic: Basic,
    operator: Operator,
    operand: Operand<E::Type>,
) -> Result<Operand<E::Type>, Rule>
    ensures { result ≡ prefixes.signed_over (E.types env.now) basic operator operand }
{
    if !is_over(basic, basic_under(env, &operand.value_type)) {
        return Err(Rule::Y3);
    }
    signed(operator, operand.value_type, &operand.constant)
}

/// What a unary operator makes of an operand, or the rule that it breaks. A composite literal counts as addressable for `&`.
///
/// By what lies under the type, `+` and `-` take int, `!` bool, and `*` a pointer, whose variable is addressable; `&` takes what is
/// addressable, and gives a pointer to its type. The value is constant where the operand is and the operator is no `*` or `&`.
///
/// The rule is X1 for `^`, and where an untyped constant is out of range; Y7 where a typed one is; Y3 where the operand does not fit, as
/// `nil` never does. The Go specification, "Arithmetic operators", "Logical operators", "Address operators", "Constant expressions".
///
/// # Errors
///
/// `AllocError` where memory is wanting.
pub fn unary<E: TypeLooks>(
    env: &E,
    alloc: Global,
    operator: Operator,
    is_literal: bool,
    operand: Operand<E::Type>,
) -> Result<Result<Operand<E::Type>, Rule>, AllocError>
    ensures { IfOk result (λ r. r ≡ prefixes.unary_operand (E.types env.now) operator is_literal operand) }
{
    match prefix_of(operator) {
        Prefix::Sign => Ok(signed_over(env, Basic::Int, operator, operand)),
        Prefix::Negation => Ok(signed_over(env, Basic::Bool, operator, operand)),
        Prefix::Indirection => Ok(indirection(env, &operand.value_type)),
        Prefix::Address => {
            address(
                env,
                alloc,
                is_literal || operand.addressable,
                &operand.value_type,
            )
        }
        Prefix::Bits => Ok(Err(Rule::X1)),
    }
}

/// The rule that a unary operator breaks before an operand that is refused: X1 for `^`, which is outside the profile whatever it stands
/// before; else none.
pub fn refused_unary(operator: Operator) -> Option<Rule>
    ensures { result ≡ prefixes.refused_unary operator }
{
    match prefix_of(operator) {
        Prefix::Bits => Some(Rule::X1),
        Prefix::Sign | Prefix::Negation | Prefix::Indirection | Prefix::Address => None,
    }
}
