//! Conversions, and calls of predeclared functions.
ghost use Rattle.std.specs.Prelude.{◌≡◌, false, IfOk};
ghost use Rattle.std.specs.List.{list_all};
ghost use Rattle.go_denote_core.specs.Look.{look_of};
ghost use Rattle.go_denote_core.specs.Answers.{value_of_type as value_of_one};
ghost use Rattle.go_denote_core.specs.Calls as calls;
ghost use Rattle.go_denote_core.specs.mirrors.Lone.{only as the_only};

use crate::answers::{declared, refused, value_of_type};
use crate::arguments::fits_type;
use crate::looks::Names;
use crate::things::{Answer, Argument, Builtin, Denoted};
use go_operand_core::{Operand, basic_under, convert, length_of};
use go_text_core::Rule;
use std::alloc::{AllocError, Global};

// The only argument, where there is one and no second.
fn only<T: Drop>(mut arguments: Vec<Argument<T>>) -> Option<Argument<T>>
    ensures { result ≡ the_only arguments.items }
{
    let last = arguments.pop();
    if arguments.is_empty() { last } else { None }
}

// What comes of a conversion that is judged.
fn of_conversion<T: Drop, S: Drop, D: Drop, P: Drop>(
    decl: D,
    converted: Result<Operand<T>, Rule>,
) -> Answer<T, S, D, P>
    ensures { result ≡ calls.of_conversion decl converted }
{
    match converted {
        Ok(operand) => declared(decl, Denoted::Value(operand)),
        Err(rule) => refused(rule),
    }
}

// What comes of an argument that is converted to a type.
fn convert_argument<E: Names>(
    env: &E,
    alloc: Global,
    decl: &E::Decl,
    t: &Option<E::Type>,
    argument: &Argument<E::Type>,
) -> Result<Answer<E::Type, E::Signature, E::Decl, E::Path>, AllocError>
    ensures { IfOk result (λ answer. answer ≡ calls.convert_argument (look_of (E.types env.now) (E.names env.now)) decl.now t.now argument.now) }
{
    match argument {
        Argument::Refused => Ok(declared(env.again_decl(decl), of_type(env, t))),
        Argument::Void => Ok(refused(Rule::C4)),
        Argument::Value(operand) => match t {
            None => Ok(refused(Rule::C4)),
            Some(t) => {
                let converted = convert(env, alloc, operand, t)?;
                Ok(of_conversion(env.again_decl(decl), converted))
            }
        },
    }
}

/// A value of a type, where there is one.
pub(crate) fn of_type<E: Names>(
    env: &E,
    t: &Option<E::Type>,
) -> Denoted<E::Type, E::Signature, E::Decl>
    ensures { result ≡ value_of_one false t.now }
{
    match t {
        None => Denoted::Typeless,
        Some(t) => value_of_type(false, Some(env.again(t))),
    }
}

/// What a conversion has, by its arguments.
pub(crate) fn conversion<E: Names>(
    env: &E,
    alloc: Global,
    decl: &E::Decl,
    t: &Option<E::Type>,
    arguments: Vec<Argument<E::Type>>,
) -> Result<Answer<E::Type, E::Signature, E::Decl, E::Path>, AllocError>
    ensures { IfOk result (λ answer. answer ≡ calls.conversion (look_of (E.types env.now) (E.names env.now)) decl.now t.now arguments.items) }
{
    match only(arguments) {
        None => Ok(refused(Rule::C2)),
        Some(argument) => convert_argument(env, alloc, decl, t, &argument),
    }
}

fn of_length<T: Drop, S: Drop, D: Drop, P: Drop>(
    decl: D,
    length: Option<Operand<T>>,
) -> Answer<T, S, D, P>
    ensures { result ≡ calls.of_length decl length }
{
    match length {
        None => refused(Rule::C3),
        Some(operand) => declared(decl, Denoted::Value(operand)),
    }
}

fn length_argument<E: Names>(
    env: &E,
    decl: E::Decl,
    argument: &Argument<E::Type>,
) -> Answer<E::Type, E::Signature, E::Decl, E::Path>
    ensures { result ≡ calls.length_argument (look_of (E.types env.now) (E.names env.now)) decl argument.now }
{
    match argument {
        Argument::Refused => declared(decl, value_of_type(false, Some(env.int()))),
        Argument::Void => refused(Rule::C3),
        Argument::Value(operand) => of_length(decl, length_of(env, operand)),
    }
}

fn length_call<E: Names>(
    env: &E,
    decl: E::Decl,
    arguments: Vec<Argument<E::Type>>,
) -> Answer<E::Type, E::Signature, E::Decl, E::Path>
    ensures { result ≡ calls.length_call (look_of (E.types env.now) (E.names env.now)) decl arguments.items }
{
    match only(arguments) {
        None => refused(Rule::C2),
        Some(argument) => length_argument(env, decl, &argument),
    }
}

fn panic_call<E: Names>(
    env: &E,
    alloc: Global,
    decl: E::Decl,
    arguments: Vec<Argument<E::Type>>,
) -> Result<Answer<E::Type, E::Signature, E::Decl, E::Path>, AllocError>
    ensures { IfOk result (λ answer. answer ≡ calls.panic_call (look_of (E.types env.now) (E.names env.now)) decl arguments.items) }
{
    match only(arguments) {
        None => Ok(refused(Rule::C2)),
        Some(argument) => {
            if fits_type(env, alloc, &env.any(), &argument)? {
                Ok(declared(decl, Denoted::Nothing))
            } else {
                Ok(refused(Rule::C3))
            }
        }
    }
}

fn is_printable<E: Names>(env: &E, argument: &Argument<E::Type>) -> bool
    ensures { result ≡ calls.is_printable (look_of (E.types env.now) (E.names env.now)) argument.now }
{
    match argument {
        Argument::Refused => true,
        Argument::Void => false,
        Argument::Value(operand) => basic_under(env, &operand.value_type).is_some(),
    }
}

#[tactic(auto, using(crate::proofs::Turns::all_turn))]
fn all_printable<E: Names>(env: &E, arguments: &[Argument<E::Type>]) -> bool
    ensures { result ≡ list_all (calls.is_printable (look_of (E.types env.now) (E.names env.now))) arguments.now }
{
    for argument in arguments {
        if !is_printable(env, argument) {
            return false;
        }
    }
    true
}

/// What a call of a predeclared function has, by its arguments.
pub(crate) fn builtin_call<E: Names>(
    env: &E,
    alloc: Global,
    decl: E::Decl,
    builtin: Builtin,
    arguments: Vec<Argument<E::Type>>,
) -> Result<Answer<E::Type, E::Signature, E::Decl, E::Path>, AllocError>
    ensures { IfOk result (λ answer. answer ≡ calls.builtin_call (look_of (E.types env.now) (E.names env.now)) decl builtin arguments.items) }
{
    match builtin {
        Builtin::Len => Ok(length_call(env, decl, arguments)),
        Builtin::Panic => panic_call(env, alloc, decl, arguments),
        Builtin::Print => {
            if all_printable(env, &arguments) {
                Ok(declared(decl, Denoted::Nothing))
            } else {
                Ok(refused(Rule::C3))
            }
        }
    }
}
