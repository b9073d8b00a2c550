//! The values that calls are given.
ghost use Rattle.std.specs.Prelude.{◌≡◌, [], ◌∷◌, map, IfOk};
ghost use Rattle.go_denote_core.specs.Look.{look_of};
ghost use Rattle.go_denote_core.specs.Arguments as given;

use crate::looks::Names;
use crate::things::{Argument, Denoted};
use go_operand_core::{Operand, TypeLooks, ValueType, assignable_to};
use go_text_core::Rule;
use std::alloc::{AllocError, Global};

// A result of a call.
fn argument_of_result<T: Drop>(t: Option<T>) -> Argument<T>
    ensures { result ≡ given.argument_of_result t }
{
    match t {
        None => Argument::Refused,
        Some(t) => Argument::Value(Operand {
            value_type: ValueType::Typed(t),
            constant: None,
            addressable: false,
        }),
    }
}

/// What a member of a list of several is: a single value, or a refused operand.
pub fn argument_of<T: Drop, S: Drop, D: Drop>(member: Denoted<T, S, D>) -> Argument<T>
    ensures { result ≡ given.argument_of member }
{
    match member {
        Denoted::Value(operand) => Argument::Value(operand),
        Denoted::Refused
        | Denoted::Typeless
        | Denoted::Package(_)
        | Denoted::Type(_, _)
        | Denoted::Several(_)
        | Denoted::Nothing
        | Denoted::Func(_, _)
        | Denoted::Builtin(_, _) => Argument::Refused,
    }
}

// The results of a call.
fn results_of<E: Names>(
    env: &E,
    alloc: Global,
    signature: &E::Signature,
) -> Result<Vec<Argument<E::Type>>, AllocError>
    ensures { IfOk result (λ all. all.items ≡ map given.argument_of_result ((E.names env.now).results signature.now)) }
{
    let mut all = Vec::new(alloc);
    for at in 0..env.result_count(signature) {
        all.push(argument_of_result(env.result_at(signature, at)))?;
    }
    Ok(all)
}

fn single<T: Drop>(alloc: Global, argument: Argument<T>) -> Result<Vec<Argument<T>>, AllocError>
    ensures { IfOk result (λ all. all.items ≡ argument ∷ []) }
{
    let mut all = Vec::new(alloc);
    all.push(argument)?;
    Ok(all)
}

// The only member of a list.
fn arguments_alone<E: Names>(
    env: &E,
    alloc: Global,
    member: Denoted<E::Type, E::Signature, E::Decl>,
) -> Result<Vec<Argument<E::Type>>, AllocError>
    ensures { IfOk result (λ all. all.items ≡ given.arguments_alone (look_of (E.types env.now) (E.names env.now)) member) }
{
    match member {
        Denoted::Several(signature) => results_of(env, alloc, &signature),
        Denoted::Nothing => single(alloc, Argument::Void),
        Denoted::Value(operand) => single(alloc, Argument::Value(operand)),
        Denoted::Refused
        | Denoted::Typeless
        | Denoted::Package(_)
        | Denoted::Type(_, _)
        | Denoted::Func(_, _)
        | Denoted::Builtin(_, _) => single(alloc, Argument::Refused),
    }
}

// The members of a list, each for itself.
fn each<T: Drop, S: Drop, D: Drop>(
    alloc: Global,
    members: Vec<Denoted<T, S, D>>,
) -> Result<Vec<Argument<T>>, AllocError>
    ensures { IfOk result (λ all. all.items ≡ map given.argument_of members.items) }
{
    let mut all = Vec::with_capacity(alloc, members.len())?;
    for member in members {
        all.push(argument_of(member))?;
    }
    Ok(all)
}

/// What a call is given, by what the members of its list denote.
///
/// A list that is one call with several results stands for these, and one call without results for one argument without a value.
/// Another member is a single value or a refused operand. The Go specification, "Calls".
///
/// # Errors
///
/// `AllocError` where memory is wanting.
pub fn arguments_of<E: Names>(
    env: &E,
    alloc: Global,
    mut members: Vec<Denoted<E::Type, E::Signature, E::Decl>>,
) -> Result<Vec<Argument<E::Type>>, AllocError>
    ensures { IfOk result (λ all. all.items ≡ given.arguments_of (look_of (E.types env.now) (E.names env.now)) members.items) }
{
    if members.len() != 1 {
        return each(alloc, members);
    }
    match members.pop() {
        None => Ok(Vec::new(alloc)),
        Some(member) => arguments_alone(env, alloc, member),
    }
}

/// Whether an operand is refused, or what it denotes has no type.
pub fn is_refused<T: Drop, S: Drop, D: Drop>(member: &Denoted<T, S, D>) -> bool
    ensures { result ≡ given.is_refused member.now }
{
    matches!(member, Denoted::Refused | Denoted::Typeless)
}

/// Whether an argument breaks no rule where a type is wanted: its value is assignable to the type, or it is refused. A call without results
/// is no value, and fits no type.
///
/// The Go specification, "Calls", "Assignability".
///
/// # Errors
///
/// `AllocError` where memory is wanting.
pub fn fits_type<E: TypeLooks>(
    env: &E,
    alloc: Global,
    t: &E::Type,
    argument: &Argument<E::Type>,
) -> Result<bool, AllocError>
    ensures { IfOk result (λ fits. fits ≡ given.fits_type (E.types env.now) t.now argument.now) }
{
    match argument {
        Argument::Refused => Ok(true),
        Argument::Void => Ok(false),
        Argument::Value(operand) => assignable_to(env, alloc, operand, t),
    }
}

/// The rule that an expression breaks where a single value is wanted, if it breaks one: Y3, for a call with several results or none.
/// One that is refused breaks no rule.
///
/// A single value is wanted of an operand, and of a member of a list of several. The Go specification, "Operators", "Assignment
/// statements": each expression must be single-valued.
pub fn single_rule<T: Drop, S: Drop, D: Drop>(denoted: &Denoted<T, S, D>) -> Option<Rule>
    ensures { result ≡ given.single_rule denoted.now }
{
    match denoted {
        Denoted::Nothing | Denoted::Several(_) => Some(Rule::Y3),
        Denoted::Value(_)
        | Denoted::Refused
        | Denoted::Typeless
        | Denoted::Package(_)
        | Denoted::Type(_, _)
        | Denoted::Func(_, _)
        | Denoted::Builtin(_, _) => None,
    }
}

/// Whether nothing is known of the arguments of a call: its list is one call, in parentheses or not, and this is refused.
pub fn is_free<T: Drop, S: Drop, D: Drop>(is_lone_call: bool, members: &[Denoted<T, S, D>]) -> bool
    ensures { result ≡ given.is_free is_lone_call members.now }
{
    is_lone_call && members.len() == 1 && is_refused(&members[0])
}
