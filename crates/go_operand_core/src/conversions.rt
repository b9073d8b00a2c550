//! Conversions, conditions and lengths.
ghost use Rattle.std.specs.Prelude.{◌≡◌, IfOk};
ghost use Rattle.go_operand_core.specs.Conversions as conversions;

use crate::assignments::assignable;
use crate::operators::value;
use crate::types::{Operand, TypeLooks, ValueType};
use crate::values::{basic_under, form_basic, is_over};
use go_constant_core::{Constant, text_length};
use go_term_core::Basic;
use go_token_core::text_core::Rule;
use std::alloc::{AllocError, Global};

fn convertible<E: TypeLooks>(env: &E, value_type: &ValueType<E::Type>, t: &E::Type) -> bool
    ensures { result ≡ conversions.convertible (E.types env.now) value_type.now t.now }
{
    match value_type {
        ValueType::Typed(s) => env.convertible(s, t),
        ValueType::UntypedInt | ValueType::UntypedText | ValueType::UntypedBool | ValueType::Nil =>
            false,
    }
}

fn makes_text<E: TypeLooks>(env: &E, value_type: &ValueType<E::Type>, t: &E::Type) -> bool
    ensures { result ≡ conversions.makes_text (E.types env.now) value_type.now t.now }
{
    is_over(Basic::Int, basic_under(env, value_type))
        && is_over(Basic::Text, form_basic(env.form(t)))
}

fn kept(basic: Option<Basic>, constant: &Option<Constant>) -> Result<Option<Constant>, AllocError>
    ensures { IfOk result (λ c. c ≡ conversions.kept basic constant.now) }
{
    match basic {
        None => Ok(None),
        Some(_) => match constant {
            None => Ok(None),
            Some(constant) => Ok(Some(constant.share()?)),
        },
    }
}

fn fits<E: TypeLooks>(
    env: &E,
    alloc: Global,
    value_type: &ValueType<E::Type>,
    t: &E::Type,
) -> Result<bool, AllocError>
    ensures { IfOk result (λ b. b ≡ conversions.fits (E.types env.now) value_type.now t.now) }
{
    if assignable(env, alloc, value_type, t)? {
        return Ok(true);
    }
    Ok(convertible(env, value_type, t))
}

/// What a conversion to a type makes of an operand, or the rule that it breaks. To a type over bool, int or string a constant stays one;
/// what is converted to another type is not constant.
///
/// The rule is X1 where an integer would become a string; C4 where the operand is neither assignable to the type nor convertible. The Go
/// specification, "Conversions".
///
/// # Errors
///
/// `AllocError` where memory is wanting, or a text has too many owners.
pub fn convert<E: TypeLooks>(
    env: &E,
    alloc: Global,
    operand: &Operand<E::Type>,
    t: &E::Type,
) -> Result<Result<Operand<E::Type>, Rule>, AllocError>
    ensures { IfOk result (λ r. r ≡ conversions.convert (E.types env.now) operand.now t.now) }
{
    if makes_text(env, &operand.value_type, t) {
        return Ok(Err(Rule::X1));
    }
    if !fits(env, alloc, &operand.value_type, t)? {
        return Ok(Err(Rule::C4));
    }
    let constant = kept(form_basic(env.form(t)), &operand.constant)?;
    Ok(Ok(value(ValueType::Typed(env.again(t)), constant)))
}

/// Whether an operand may stand as the condition of an `if` or a `for`: it is over bool.
///
/// The Go specification, "If statements", "For statements": a boolean expression.
pub fn is_condition<E: TypeLooks>(env: &E, operand: &Operand<E::Type>) -> bool
    ensures { result ≡ conversions.is_condition (E.types env.now) operand.now }
{
    is_over(Basic::Bool, basic_under(env, &operand.value_type))
}

fn length_constant(constant: &Option<Constant>) -> Option<Constant>
    ensures { result ≡ conversions.length_constant constant.now }
{
    match constant {
        None => None,
        Some(constant) => Some(text_length(constant)),
    }
}

/// What `len` makes of an operand that is over string: a value of type `int`, which is constant where the operand is. None where the
/// operand is over anything else.
///
/// The Go specification, "Length and capacity".
pub fn length_of<E: TypeLooks>(env: &E, operand: &Operand<E::Type>) -> Option<Operand<E::Type>>
    ensures { result ≡ conversions.length_of (E.types env.now) operand.now }
{
    if !is_over(Basic::Text, basic_under(env, &operand.value_type)) {
        return None;
    }
    Some(value(
        ValueType::Typed(env.int()),
        length_constant(&operand.constant),
    ))
}
