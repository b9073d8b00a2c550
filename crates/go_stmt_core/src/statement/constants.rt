//! Declarations of constants.
ghost use Rattle.std.specs.Prelude.{◌≡◌, IfOk};
ghost use Rattle.std.specs.List.{list_all};
ghost use Rattle.go_stmt_core.specs.statement.Constants as constants;

use go_constant_core::Constant;
use go_constant_core::text_core::Rule;
use go_expr_core::denote_core::Argument;
use go_expr_core::operand_core::{
    Operand, TypeLooks, ValueType, assignable_to, basic_under, form_basic,
};
use std::alloc::{AllocError, Global};

/// What a constant is declared as.
#[derive(Drop)]
pub struct ConstantAnswer<T> {
    /// The constant with its type, which may be untyped; none where it has no type.
    pub value: Option<Operand<T>>,
    /// The rule that is broken: Y7 of the expression, or Y4 of the specification.
    pub rule: Option<Rule>,
}

fn is_constant_value<E: TypeLooks>(env: &E, operand: &Operand<E::Type>) -> bool
    ensures { result ≡ constants.is_constant_value (E.types env.now) operand.now }
{
    operand.constant.is_some() && basic_under(env, &operand.value_type).is_some()
}

fn is_constant<E: TypeLooks>(env: &E, argument: &Argument<E::Type>) -> bool
    ensures { result ≡ constants.is_constant (E.types env.now) argument.now }
{
    match argument {
        Argument::Refused | Argument::Void => false,
        Argument::Value(operand) => is_constant_value(env, operand),
    }
}

#[tactic(auto, using(crate::proofs::StatementTurns::all_turn))]
fn are_constant<E: TypeLooks>(env: &E, given: &[Argument<E::Type>]) -> bool
    ensures { result ≡ list_all (constants.is_constant (E.types env.now)) given.now }
{
    for argument in given {
        if !is_constant(env, argument) {
            return false;
        }
    }
    true
}

/// The rule that the count of expressions of a specification of constants breaks, if it breaks one: Y4.
///
/// There are as many expressions as constants. The count of a call alone, in parentheses or not, that is no constant is not known. The Go
/// specification, "Constant declarations": the number of identifiers must be equal to the number of expressions.
pub fn constants_rule<E: TypeLooks>(
    env: &E,
    is_lone_call: bool,
    count: usize,
    given: &[Argument<E::Type>],
) -> Option<Rule>
    ensures { result ≡ constants.constants_rule (E.types env.now) is_lone_call count given.now }
{
    if is_lone_call && !are_constant(env, given) {
        return None;
    }
    if count == given.len() {
        None
    } else {
        Some(Rule::Y4)
    }
}

fn answer<T: Drop>(value: Option<Operand<T>>, rule: Option<Rule>) -> ConstantAnswer<T>
    ensures { result ≡ constants.answer value rule }
{
    ConstantAnswer { value, rule }
}

fn constant_operand<T: Drop>(value_type: ValueType<T>, constant: Constant) -> Option<Operand<T>>
    ensures { result ≡ constants.constant_operand value_type constant }
{
    Some(Operand {
        value_type,
        constant: Some(constant),
        addressable: false,
    })
}

// A constant over bool, int or string.
fn constant_of<E: TypeLooks>(
    env: &E,
    operand: &Operand<E::Type>,
) -> Result<Option<Constant>, AllocError>
    ensures { IfOk result (λ c. c ≡ constants.operand_constant (E.types env.now) operand.now) }
{
    if basic_under(env, &operand.value_type).is_none() {
        return Ok(None);
    }
    match &operand.constant {
        None => Ok(None),
        Some(constant) => Ok(Some(constant.share()?)),
    }
}

fn type_again<E: TypeLooks>(env: &E, value_type: &ValueType<E::Type>) -> ValueType<E::Type>
    ensures { result ≡ value_type.now }
{
    match value_type {
        ValueType::Typed(t) => ValueType::Typed(env.again(t)),
        ValueType::UntypedInt => ValueType::UntypedInt,
        ValueType::UntypedText => ValueType::UntypedText,
        ValueType::UntypedBool => ValueType::UntypedBool,
        ValueType::Nil => ValueType::Nil,
    }
}

fn untyped_value<E: TypeLooks>(
    env: &E,
    operand: &Operand<E::Type>,
) -> Result<ConstantAnswer<E::Type>, AllocError>
    ensures { IfOk result (λ a. a ≡ constants.untyped_value (E.types env.now) operand.now) }
{
    match constant_of(env, operand)? {
        None => Ok(answer(None, Some(Rule::Y7))),
        Some(constant) => Ok(answer(
            constant_operand(type_again(env, &operand.value_type), constant),
            None,
        )),
    }
}

// No type is written.
fn of_own_type<E: TypeLooks>(
    env: &E,
    given: &Argument<E::Type>,
) -> Result<ConstantAnswer<E::Type>, AllocError>
    ensures { IfOk result (λ a. a ≡ constants.of_own_type (E.types env.now) given.now) }
{
    match given {
        Argument::Refused => Ok(answer(None, None)),
        Argument::Void => Ok(answer(None, Some(Rule::Y7))),
        Argument::Value(operand) => untyped_value(env, operand),
    }
}

// What is written as a type is none.
fn of_no_type<E: TypeLooks>(env: &E, given: &Argument<E::Type>) -> ConstantAnswer<E::Type>
    ensures { result ≡ constants.of_no_type (E.types env.now) given.now }
{
    match given {
        Argument::Refused => answer(None, None),
        Argument::Void => answer(None, Some(Rule::Y7)),
        Argument::Value(operand) => {
            answer(
                None,
                if is_constant_value(env, operand) {
                    None
                } else {
                    Some(Rule::Y7)
                },
            )
        }
    }
}

fn unknown<E: TypeLooks>(env: &E, t: &E::Type) -> Option<Operand<E::Type>>
    ensures { result ≡ constants.unknown t.now }
{
    constant_operand(ValueType::Typed(env.again(t)), Constant::Unknown)
}

fn typed_value<E: TypeLooks>(
    env: &E,
    alloc: Global,
    t: &E::Type,
    operand: &Operand<E::Type>,
) -> Result<ConstantAnswer<E::Type>, AllocError>
    ensures { IfOk result (λ a. a ≡ constants.typed_value (E.types env.now) t.now operand.now) }
{
    match constant_of(env, operand)? {
        None => Ok(answer(unknown(env, t), Some(Rule::Y7))),
        Some(constant) => {
            if assignable_to(env, alloc, operand, t)? {
                let value_type = ValueType::Typed(env.again(t));
                return Ok(answer(constant_operand(value_type, constant), None));
            }
            Ok(answer(unknown(env, t), Some(Rule::Y4)))
        }
    }
}

// A type over bool, int or string is written.
fn of_basic_type<E: TypeLooks>(
    env: &E,
    alloc: Global,
    t: &E::Type,
    given: &Argument<E::Type>,
) -> Result<ConstantAnswer<E::Type>, AllocError>
    ensures { IfOk result (λ a. a ≡ constants.of_basic_type (E.types env.now) t.now given.now) }
{
    match given {
        Argument::Refused => Ok(answer(unknown(env, t), None)),
        Argument::Void => Ok(answer(unknown(env, t), Some(Rule::Y7))),
        Argument::Value(operand) => typed_value(env, alloc, t, operand),
    }
}

/// What a constant is declared as, by the type that is written, which may be none, and by what its expression gives.
///
/// Its expression is constant and over `bool`, `int` or `string`, and so is the written type, else Y7; and the constant is assignable to
/// that type, else Y4. With a written type it has this type, and else that of its expression, which may be untyped; its value is that of the
/// expression. What is refused breaks no rule: with a written type the constant has it, and its value is not known. So it is after
/// a rule is broken, too; where the written type is not over `bool`, `int` or `string`, or no type is written, it then has no type. The
/// Go specification, "Constant declarations", "Constants".
///
/// # Errors
///
/// `AllocError` where memory is wanting, or a text has too many owners.
pub fn constant_answer<E: TypeLooks>(
    env: &E,
    alloc: Global,
    written: &Option<Option<E::Type>>,
    given: &Argument<E::Type>,
) -> Result<ConstantAnswer<E::Type>, AllocError>
    ensures { IfOk result (λ a. a ≡ constants.constant_answer (E.types env.now) written.now given.now) }
{
    match written {
        None => of_own_type(env, given),
        Some(None) => Ok(of_no_type(env, given)),
        Some(Some(t)) => match form_basic(env.form(t)) {
            None => Ok(answer(None, Some(Rule::Y7))),
            Some(_) => of_basic_type(env, alloc, t, given),
        },
    }
}
