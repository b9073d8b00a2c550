//! Declarations of variables.
ghost use Rattle.std.specs.Prelude.{◌≡◌, IfOk, Some, length, map, replicate};
ghost use Rattle.std.specs.List.{list_all};
ghost use Rattle.go_expr_core.specs.denote_core.declared.things.Argument.TheVariants as arguments;
ghost use Rattle.go_stmt_core.specs.statement.Assignments as assignments;
ghost use Rattle.go_stmt_core.specs.statement.Declarations as declarations;

use crate::statement::assignments::{takes, unless};
use crate::statement::targets::Target;
use go_constant_core::text_core::Rule;
use go_expr_core::denote_core::Argument;
use go_expr_core::operand_core::{TypeLooks, default_type};
use std::alloc::{AllocError, Global};

/// A type once more, or none where there is none.
pub fn some_type_again<E: TypeLooks>(env: &E, t: &Option<E::Type>) -> Option<E::Type>
    ensures { result ≡ t.now }
{
    match t {
        None => None,
        Some(t) => Some(env.again(t)),
    }
}

fn given_type<E: TypeLooks>(env: &E, argument: &Argument<E::Type>) -> Option<E::Type>
    ensures { result ≡ declarations.given_type (E.types env.now) argument.now }
{
    match argument {
        Argument::Refused | Argument::Void => None,
        Argument::Value(operand) => default_type(env, &operand.value_type),
    }
}

fn given_types<E: TypeLooks>(
    env: &E,
    alloc: Global,
    given: &[Argument<E::Type>],
) -> Result<Vec<Option<E::Type>>, AllocError>
    ensures { IfOk result (λ all. all.items ≡ map (declarations.given_type (E.types env.now)) given.now) }
{
    let mut all = Vec::with_capacity(alloc, given.len())?;
    for argument in given {
        all.push(given_type(env, argument))?;
    }
    Ok(all)
}

fn repeated<E: TypeLooks>(
    env: &E,
    alloc: Global,
    count: usize,
    t: &Option<E::Type>,
) -> Result<Vec<Option<E::Type>>, AllocError>
    ensures { IfOk result (λ all. all.items ≡ replicate count t.now) }
{
    let mut all = Vec::with_capacity(alloc, count)?;
    for _ in 0..count {
        all.push(some_type_again(env, t))?;
    }
    Ok(all)
}

/// The types of the variables of a specification, in their order, by the type that is written and by what the list on the right gives:
/// none for a variable without a type.
///
/// The written type, where there is one; it may itself be none. Else the type of the variable's own value, or the default type of an
/// untyped one; none for `nil`, for what is refused, and where there is not one value for each variable. The Go specification, "Variable
/// declarations": if no type is given, each variable takes the type of its value, and an untyped constant is first converted to its default
/// type.
///
/// # Errors
///
/// `AllocError` where memory is wanting.
pub fn declared_types<E: TypeLooks>(
    env: &E,
    alloc: Global,
    written: &Option<Option<E::Type>>,
    count: usize,
    given: &[Argument<E::Type>],
) -> Result<Vec<Option<E::Type>>, AllocError>
    ensures { IfOk result (λ all. all.items ≡ declarations.declared_types (E.types env.now) written.now count given.now) }
{
    match written {
        Some(t) => repeated(env, alloc, count, t),
        None => {
            if count == given.len() {
                return given_types(env, alloc, given);
            }
            repeated(env, alloc, count, &None)
        }
    }
}

fn declared_target<E: TypeLooks>(env: &E, written: &Option<Option<E::Type>>) -> Target<E::Type>
    ensures { result ≡ declarations.declared_target written.now }
{
    match written {
        None => Target::New,
        Some(None) => Target::Typeless,
        Some(Some(t)) => Target::Variable(env.again(t)),
    }
}

fn takes_all<E: TypeLooks>(
    env: &E,
    alloc: Global,
    target: &Target<E::Type>,
    given: &[Argument<E::Type>],
) -> Result<bool, AllocError>
    ensures { IfOk result (λ b. b ≡ list_all (assignments.takes_argument (E.types env.now) target.now) given.now) }
{
    for argument in given {
        if !takes(env, alloc, target, argument)? {
            return Ok(false);
        }
    }
    Ok(true)
}

/// The rule that a specification of variables with a list of values breaks, if it breaks one: Y4.
///
/// There is a value for each of the variables, which has a type, a default type included, or is assignable to the type that is written.
/// What is refused breaks no rule, but counts, unless nothing is known of it; and a written type that is none takes each value. The Go
/// specification, "Variable declarations".
///
/// # Errors
///
/// `AllocError` where memory is wanting.
pub fn variables_rule<E: TypeLooks>(
    env: &E,
    alloc: Global,
    written: &Option<Option<E::Type>>,
    count: usize,
    is_free: bool,
    given: &[Argument<E::Type>],
) -> Result<Option<Rule>, AllocError>
    ensures { IfOk result (λ rule. rule ≡ declarations.variables_rule (E.types env.now) written.now count is_free given.now) }
{
    if is_free {
        return Ok(None);
    }
    if count != given.len() {
        return Ok(Some(Rule::Y4));
    }
    let target = declared_target(env, written);
    Ok(unless(takes_all(env, alloc, &target, given)?))
}

fn is_initial<T: Drop>(argument: &Argument<T>) -> bool
    ensures { result ≡ declarations.is_initial argument.now }
{
    match argument {
        Argument::Refused | Argument::Void => false,
        Argument::Value(operand) => operand.constant.is_some(),
    }
}

#[tactic(auto, using(crate::proofs::StatementTurns::all_turn))]
fn are_initial<T: Drop>(given: &[Argument<T>]) -> bool
    ensures { result ≡ list_all declarations.is_initial given.now }
{
    for argument in given {
        if !is_initial(argument) {
            return false;
        }
    }
    true
}

/// What a variable outside functions is given: the value, where it is a constant. What is none is refused, whatever it is: that it is no
/// constant is its own rule.
pub fn initial_argument<T: Drop>(argument: Argument<T>) -> Argument<T>
    ensures { result ≡ declarations.initial_argument argument }
{
    match argument {
        Argument::Value(operand) => {
            if operand.constant.is_some() {
                Argument::Value(operand)
            } else {
                Argument::Refused
            }
        }
        Argument::Refused | Argument::Void => Argument::Refused,
    }
}

fn initial_arguments<T: Drop>(
    alloc: Global,
    given: Vec<Argument<T>>,
) -> Result<Vec<Argument<T>>, AllocError>
    ensures { IfOk result (λ all. all.items ≡ map declarations.initial_argument given.items) }
{
    let mut all = Vec::with_capacity(alloc, given.len())?;
    for argument in given {
        all.push(initial_argument(argument))?;
    }
    Ok(all)
}

/// The rule that a specification of variables outside functions with a list of values breaks, if it breaks one: Y4.
///
/// As [`variables_rule`] says, but that a value that is no constant is refused: it breaks this rule by its count alone, and where it is a
/// call that stands alone, by nothing.
///
/// # Errors
///
/// `AllocError` where memory is wanting.
pub fn initials_rule<E: TypeLooks>(
    env: &E,
    alloc: Global,
    written: &Option<Option<E::Type>>,
    count: usize,
    is_lone_call: bool,
    given: Vec<Argument<E::Type>>,
) -> Result<Option<Rule>, AllocError>
    ensures { IfOk result (λ rule. rule ≡ declarations.initials_rule (E.types env.now) written.now count is_lone_call given.items) }
{
    let is_free = is_lone_call && !are_initial(&given);
    let initial = initial_arguments(alloc, given)?;
    variables_rule(env, alloc, written, count, is_free, &initial)
}

fn type_after<E: TypeLooks>(
    env: &E,
    target: &Target<E::Type>,
    argument: &Argument<E::Type>,
) -> Option<E::Type>
    ensures { result ≡ declarations.type_after (E.types env.now) target.now argument.now }
{
    match target {
        Target::New => given_type(env, argument),
        Target::Variable(t) => Some(env.again(t)),
        Target::Blank | Target::Typeless | Target::Fixed => None,
    }
}

fn paired_types<E: TypeLooks>(
    env: &E,
    alloc: Global,
    targets: &[Target<E::Type>],
    given: &[Argument<E::Type>],
) -> Result<Vec<Option<E::Type>>, AllocError>
    requires { length targets.now ≡ length given.now }
    ensures { IfOk result (λ all. all.items ≡ declarations.paired_types (E.types env.now) targets.now given.now) }
{
    let mut all = Vec::with_capacity(alloc, targets.len())?;
    for (at, target) in targets.iter().enumerate() {
        all.push(type_after(env, target, &given[at]))?;
    }
    Ok(all)
}

fn kept_types<E: TypeLooks>(
    env: &E,
    alloc: Global,
    targets: &[Target<E::Type>],
) -> Result<Vec<Option<E::Type>>, AllocError>
    ensures { IfOk result (λ all. all.items ≡ map (λ target. declarations.type_after (E.types env.now) target arguments.Refused) targets.now) }
{
    let mut all = Vec::with_capacity(alloc, targets.len())?;
    for target in targets {
        all.push(type_after(env, target, &Argument::Refused))?;
    }
    Ok(all)
}

/// The types that the names left of `:=` have, in their order: none for a name without a type.
///
/// A variable that was declared before keeps its type, whatever it is given. A new one has that of its value, or the default type of an
/// untyped one; none for `nil`, for what is refused, and where there is not one value for each name. The Go specification, "Short
/// variable declarations": redeclaration does not introduce a new variable; it just assigns a new value to the original.
///
/// # Errors
///
/// `AllocError` where memory is wanting.
pub fn short_types<E: TypeLooks>(
    env: &E,
    alloc: Global,
    targets: &[Target<E::Type>],
    given: &[Argument<E::Type>],
) -> Result<Vec<Option<E::Type>>, AllocError>
    ensures { IfOk result (λ all. all.items ≡ declarations.short_types (E.types env.now) targets.now given.now) }
{
    if targets.len() == given.len() {
        return paired_types(env, alloc, targets, given);
    }
    kept_types(env, alloc, targets)
}
