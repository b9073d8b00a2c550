//! The first value that does not fit.
ghost use Rattle.std.specs.Prelude.{◌≡◌, IfOk, map, option_copied, slice_get};
ghost use Rattle.go_env_core.specs.handle_core.DecidingRules.{term_rules};
ghost use Rattle.go_judge_core.specs.Misfits.{IsFirstMisfit, fits_number, fits_there, given_shown, wanted_shown};

use crate::locals::lend_operand;
use go_env_core::handle_core::{Home, TypeRef, TypesHere};
use go_stmt_core::denote_core::{Argument, fits_type};
use go_stmt_core::operand_core::{Operand, TypeLooks, ValueType, basic_under};
use go_table_core::TypeTable;
use go_term_core::{Basic, TypeTerm};
use go_tree_nodes::text_core::add;
use std::alloc::{AllocError, Global};

/// A value that is given, as far as it is known.
#[derive(Clone, Copy)]
pub enum Given<'a> {
    /// A single value.
    Value(&'a Operand<TypeTerm>),
    /// A result of a call, by its type.
    Result(&'a TypeTerm),
    /// A value of which nothing is known.
    Unknown,
}

// Whether a value fits where a type is wanted. Where one of the two is not known it does.
fn fits_there<E: TypeLooks>(
    env: &E,
    alloc: Global,
    value: Option<&Argument<E::Type>>,
    wanted: Option<&Option<E::Type>>,
) -> Result<bool, AllocError>
    ensures { IfOk result (λ fits. fits ≡ fits_there (E.types env.now) (option_copied value.entry) (option_copied wanted.entry)) }
{
    match value {
        Some(value) => match wanted {
            Some(Some(t)) => fits_type(env, alloc, t, value),
            Some(None) => Ok(true),
            None => Ok(true),
        },
        None => Ok(true),
    }
}

// The item of a number, if there is one.
fn item<T>(items: &[T], number: usize) -> Option<&T>
    ensures { option_copied result ≡ slice_get items.now number }
{
    items.get(number)
}

// Whether the value of a number fits where the type of this number is wanted.
fn fits_number<E: TypeLooks>(
    env: &E,
    alloc: Global,
    values: &[Argument<E::Type>],
    wanted: &[Option<E::Type>],
    number: usize,
) -> Result<bool, AllocError>
    ensures { IfOk result (λ fits. fits ≡ fits_number (E.types env.now) values.now wanted.now number) }
{
    fits_there(env, alloc, item(values, number), item(wanted, number))
}

// The number, from 0, of the first value that does not fit where the type of this number is wanted; none where all fit.
fn first_misfit<E: TypeLooks>(
    env: &E,
    alloc: Global,
    values: &[Argument<E::Type>],
    wanted: &[Option<E::Type>],
) -> Result<Option<usize>, AllocError>
    ensures { IfOk result (λ found. IsFirstMisfit (E.types env.now) values.now wanted.now found) }
{
    for number in 0..values.len() {
        let fits = fits_number(env, alloc, values, wanted, number)?;
        if !fits {
            return Ok(Some(number));
        }
    }
    Ok(None)
}

// A value that is given, lent, where one is wanted.
fn given_argument<'a>(given: Given<'a>) -> Result<Argument<TypeRef<'a>>, AllocError>
    ensures { IfOk result (λ a. a ≡ given_shown given.entry) }
{
    match given {
        Given::Value(operand) => Ok(Argument::Value(lend_operand(operand)?)),
        Given::Result(term) => Ok(Argument::Value(Operand {
            value_type: ValueType::Typed(TypeRef::of(term)),
            constant: None,
            addressable: false,
        })),
        Given::Unknown => Ok(Argument::Refused),
    }
}

// Values that are given, lent.
fn given_arguments<'a>(
    alloc: Global,
    values: &[Given<'a>],
) -> Result<Vec<Argument<TypeRef<'a>>>, AllocError>
    ensures { IfOk result (λ all. all.items ≡ map given_shown values.now) }
{
    let mut all = Vec::new(alloc);
    for value in values {
        add(&mut all, given_argument(*value)?)?;
    }
    Ok(all)
}

// A type that is wanted, lent.
fn lent<'a>(wanted: Option<&'a TypeTerm>) -> Option<TypeRef<'a>>
    ensures { result ≡ wanted_shown wanted.entry }
{
    match wanted {
        Some(term) => Some(TypeRef::of(term)),
        None => None,
    }
}

// Types that are wanted, lent.
fn all_lent<'a>(
    alloc: Global,
    wanted: &[Option<&'a TypeTerm>],
) -> Result<Vec<Option<TypeRef<'a>>>, AllocError>
    ensures { IfOk result (λ all. all.items ≡ map wanted_shown wanted.now) }
{
    let mut all = Vec::new(alloc);
    for t in wanted {
        add(&mut all, lent(*t))?;
    }
    Ok(all)
}

/// The number, from 0, of the first value that does not fit where the type of this number is wanted, by the types of a table.
///
/// # Errors
///
/// `AllocError` where memory is wanting.
pub(crate) fn misfit_among<'a>(
    alloc: Global,
    table: &'a TypeTable,
    home: &'a Home,
    values: &'a [Given<'a>],
    wanted: &'a [Option<&'a TypeTerm>],
) -> Result<Option<usize>, AllocError>
    ensures { IfOk result (λ found. IsFirstMisfit (term_rules table.now home.now) (map given_shown values.now) (map wanted_shown wanted.now) found) }
{
    let types = TypesHere { table, home };
    let values = given_arguments(alloc, values)?;
    let wanted = all_lent(alloc, wanted)?;
    let found = first_misfit(&types, alloc, &values, &wanted)?;
    Ok(found)
}

/// Which of bool, int and string lies under the type of a value, or is the kind of an untyped one, by the types of a table.
///
/// # Errors
///
/// `AllocError` where the text of a constant has too many owners.
pub(crate) fn basic_of<'a>(
    table: &'a TypeTable,
    home: &'a Home,
    operand: &'a Operand<TypeTerm>,
) -> Result<Option<Basic>, AllocError> {
    let types = TypesHere { table, home };
    let lent = lend_operand(operand)?;
    Ok(basic_under(&types, &lent.value_type))
}
