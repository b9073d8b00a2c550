//! Assignments.
ghost use Rattle.std.specs.Prelude.{◌≡◌, IfOk, length};
ghost use Rattle.std.specs.List.{list_all};
ghost use Rattle.go_stmt_core.specs.statement.Assignments as assignments;

use crate::statement::targets::Target;
use go_constant_core::text_core::Rule;
use go_expr_core::denote_core::{Argument, fits_type};
use go_expr_core::operand_core::{TypeLooks, ValueType};
use std::alloc::{AllocError, Global};

fn has_type<T: Drop>(value_type: &ValueType<T>) -> bool
    ensures { result ≡ assignments.has_type value_type.now }
{
    match value_type {
        ValueType::Typed(_)
        | ValueType::UntypedInt
        | ValueType::UntypedText
        | ValueType::UntypedBool => true,
        ValueType::Nil => false,
    }
}

fn gives_type<T: Drop>(argument: &Argument<T>) -> bool
    ensures { result ≡ assignments.gives_type argument.now }
{
    match argument {
        Argument::Refused => true,
        Argument::Void => false,
        Argument::Value(operand) => has_type(&operand.value_type),
    }
}

/// Whether a target takes what it is given.
pub(crate) fn takes<E: TypeLooks>(
    env: &E,
    alloc: Global,
    target: &Target<E::Type>,
    argument: &Argument<E::Type>,
) -> Result<bool, AllocError>
    ensures { IfOk result (λ b. b ≡ assignments.takes_argument (E.types env.now) target.now argument.now) }
{
    match target {
        Target::Blank | Target::New => Ok(gives_type(argument)),
        Target::Variable(t) => fits_type(env, alloc, t, argument),
        Target::Typeless => Ok(true),
        Target::Fixed => Ok(false),
    }
}

fn is_left_side<T: Drop>(target: &Target<T>) -> bool
    ensures { result ≡ assignments.is_left_side target.now }
{
    match target {
        Target::Fixed => false,
        Target::Blank | Target::New | Target::Variable(_) | Target::Typeless => true,
    }
}

#[tactic(auto, using(crate::proofs::StatementTurns::all_turn))]
fn are_left_sides<T: Drop>(targets: &[Target<T>]) -> bool
    ensures { result ≡ list_all assignments.is_left_side targets.now }
{
    for target in targets {
        if !is_left_side(target) {
            return false;
        }
    }
    true
}

fn all_taken<E: TypeLooks>(
    env: &E,
    alloc: Global,
    targets: &[Target<E::Type>],
    given: &[Argument<E::Type>],
) -> Result<bool, AllocError>
    requires { length targets.now ≡ length given.now }
    ensures { IfOk result (λ b. b ≡ assignments.all_pairs (assignments.takes_argument (E.types env.now)) targets.now given.now) }
{
    for (at, target) in targets.iter().enumerate() {
        if !takes(env, alloc, target, &given[at])? {
            return Ok(false);
        }
    }
    Ok(true)
}

/// Y4, unless all is well.
pub(crate) fn unless(is_well: bool) -> Option<Rule>
    ensures { result ≡ assignments.unless is_well }
{
    if is_well { None } else { Some(Rule::Y4) }
}

/// The rule that an assignment or a short variable declaration breaks, if it breaks one: Y4.
///
/// The targets are those left of `=` or `:=`, in their order; a name left of `:=` that is declared there is [`Target::New`]. What is given
/// is what [`go_expr_core::denote_core::arguments_of`] makes of the list on the right, and nothing is known of it where
/// [`go_expr_core::denote_core::is_free`] says so.
///
/// Each target is `_`, a new variable or addressable; there is a value for each, of the type of an addressable operand or assignable to
/// it; `_` and a new variable take each value that has a type, a default type included, so no `nil`. What is refused, and a target
/// without a type, break no rule, but count. The Go specification, "Assignment statements", "Short variable declarations".
///
/// # Errors
///
/// `AllocError` where memory is wanting.
pub fn assignment_rule<E: TypeLooks>(
    env: &E,
    alloc: Global,
    targets: &[Target<E::Type>],
    is_free: bool,
    given: &[Argument<E::Type>],
) -> Result<Option<Rule>, AllocError>
    ensures { IfOk result (λ rule. rule ≡ assignments.assignment_rule (E.types env.now) targets.now is_free given.now) }
{
    if !are_left_sides(targets) {
        return Ok(Some(Rule::Y4));
    }
    if is_free {
        return Ok(None);
    }
    if targets.len() != given.len() {
        return Ok(Some(Rule::Y4));
    }
    Ok(unless(all_taken(env, alloc, targets, given)?))
}
