//! Returns.
ghost use Rattle.std.specs.Prelude.{◌≡◌, IfOk, length};
ghost use Rattle.go_stmt_core.specs.statement.Assignments as assignments;
ghost use Rattle.go_stmt_core.specs.statement.Returns as returns;

use crate::statement::assignments::unless;
use go_constant_core::text_core::Rule;
use go_expr_core::denote_core::{Argument, fits_type};
use go_expr_core::operand_core::TypeLooks;
use std::alloc::{AllocError, Global};

fn returned<E: TypeLooks>(
    env: &E,
    alloc: Global,
    wanted: &Option<E::Type>,
    argument: &Argument<E::Type>,
) -> Result<bool, AllocError>
    ensures { IfOk result (λ b. b ≡ returns.returned (E.types env.now) wanted.now argument.now) }
{
    match wanted {
        None => Ok(true),
        Some(t) => fits_type(env, alloc, t, argument),
    }
}

fn all_returned<E: TypeLooks>(
    env: &E,
    alloc: Global,
    results: &[Option<E::Type>],
    given: &[Argument<E::Type>],
) -> Result<bool, AllocError>
    requires { length results.now ≡ length given.now }
    ensures { IfOk result (λ b. b ≡ assignments.all_pairs (returns.returned (E.types env.now)) results.now given.now) }
{
    for (at, wanted) in results.iter().enumerate() {
        if !returned(env, alloc, wanted, &given[at])? {
            return Ok(false);
        }
    }
    Ok(true)
}

/// The rule that a `return` breaks, if it breaks one: Y4.
///
/// The results are those of the function, none where one has no type; what is given is what [`go_expr_core::denote_core::arguments_of`] makes of the
/// list behind `return`, and nothing where there is none. Without values a `return` stands where the function has no results, or has
/// names for them. Else there is a value for each result, which is assignable to it. What is refused, and a result without a type, break
/// no rule, but count, unless nothing is known of the values. The Go specification, "Return statements".
///
/// # Errors
///
/// `AllocError` where memory is wanting.
pub fn return_rule<E: TypeLooks>(
    env: &E,
    alloc: Global,
    results: &[Option<E::Type>],
    has_names: bool,
    is_free: bool,
    given: &[Argument<E::Type>],
) -> Result<Option<Rule>, AllocError>
    ensures { IfOk result (λ rule. rule ≡ returns.return_rule (E.types env.now) results.now has_names is_free given.now) }
{
    if is_free {
        return Ok(None);
    }
    if has_names && given.is_empty() {
        return Ok(None);
    }
    if results.len() != given.len() {
        return Ok(Some(Rule::Y4));
    }
    Ok(unless(all_returned(env, alloc, results, given)?))
}
