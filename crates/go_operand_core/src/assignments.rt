//! Assignability of values, what two operands have in common, and which are comparable.
ghost use Rattle.std.specs.Prelude.{◌≡◌, IfOk};
ghost use Rattle.go_operand_core.specs.Assign as assign;

use crate::types::{Operand, TypeForm, TypeLooks, ValueType};
use crate::values::{basic_type, is_basic, untyped};
use go_term_core::Basic;
use std::alloc::{AllocError, Global};

fn takes_nil<T: Drop>(form: TypeForm<T>) -> bool
    ensures { result ≡ assign.takes_nil form }
{
    match form {
        TypeForm::Pointer(_) | TypeForm::Interface => true,
        TypeForm::Nothing | TypeForm::Basic(_) | TypeForm::Struct => false,
    }
}

fn untyped_assignable<E: TypeLooks>(
    env: &E,
    alloc: Global,
    basic: Basic,
    t: &E::Type,
) -> Result<bool, AllocError>
    ensures { IfOk result (λ b. b ≡ assign.untyped_assignable (E.types env.now) basic t.now) }
{
    match env.form(t) {
        TypeForm::Basic(under) => Ok(is_basic(basic, under)),
        TypeForm::Interface => env.assignable(alloc, &basic_type(env, basic), t),
        TypeForm::Nothing | TypeForm::Pointer(_) | TypeForm::Struct => Ok(false),
    }
}

pub(crate) fn assignable<E: TypeLooks>(
    env: &E,
    alloc: Global,
    value: &ValueType<E::Type>,
    t: &E::Type,
) -> Result<bool, AllocError>
    ensures { IfOk result (λ b. b ≡ assign.assignable (E.types env.now) value.now t.now) }
{
    match value {
        ValueType::Typed(s) => env.assignable(alloc, s, t),
        ValueType::UntypedInt => untyped_assignable(env, alloc, Basic::Int, t),
        ValueType::UntypedText => untyped_assignable(env, alloc, Basic::Text, t),
        ValueType::UntypedBool => untyped_assignable(env, alloc, Basic::Bool, t),
        ValueType::Nil => Ok(takes_nil(env.form(t))),
    }
}

/// Whether a value is assignable to a variable of a type.
///
/// A value of a type is where `assignable` of the types says so; `nil` to pointers and interfaces; an untyped constant or boolean to what
/// is over its basic type, and to an interface that its default type implements. The Go specification, "Assignability",
/// "Representability".
///
/// # Errors
///
/// `AllocError` where memory is wanting.
pub fn assignable_to<E: TypeLooks>(
    env: &E,
    alloc: Global,
    operand: &Operand<E::Type>,
    t: &E::Type,
) -> Result<bool, AllocError>
    ensures { IfOk result (λ b. b ≡ assign.assignable_to (E.types env.now) operand.now t.now) }
{
    assignable(env, alloc, &operand.value_type, t)
}

fn taken<E: TypeLooks>(
    env: &E,
    alloc: Global,
    value: &ValueType<E::Type>,
    t: E::Type,
) -> Result<Option<ValueType<E::Type>>, AllocError>
    ensures { IfOk result (λ v. v ≡ assign.taken (E.types env.now) value.now t) }
{
    if assignable(env, alloc, value, &t)? {
        return Ok(Some(ValueType::Typed(t)));
    }
    Ok(None)
}

fn common_typed<E: TypeLooks>(
    env: &E,
    alloc: Global,
    s: E::Type,
    other: &ValueType<E::Type>,
) -> Result<Option<ValueType<E::Type>>, AllocError>
    ensures { IfOk result (λ v. v ≡ assign.common_typed (E.types env.now) s other.now) }
{
    match other {
        ValueType::Typed(t) => {
            if env.identical(&s, t) {
                return Ok(Some(ValueType::Typed(s)));
            }
            Ok(None)
        }
        ValueType::UntypedInt | ValueType::UntypedText | ValueType::UntypedBool | ValueType::Nil =>
            taken(env, alloc, other, s),
    }
}

fn common_kind<T: Drop>(a: Basic, b: Basic) -> Option<ValueType<T>>
    ensures { result ≡ assign.common_kind a b }
{
    if is_basic(a, b) {
        Some(untyped(a))
    } else {
        None
    }
}

fn common_untyped<E: TypeLooks>(
    env: &E,
    alloc: Global,
    basic: Basic,
    other: ValueType<E::Type>,
) -> Result<Option<ValueType<E::Type>>, AllocError>
    ensures { IfOk result (λ v. v ≡ assign.common_untyped (E.types env.now) basic other) }
{
    match other {
        ValueType::Typed(t) => taken(env, alloc, &untyped(basic), t),
        ValueType::UntypedInt => Ok(common_kind(basic, Basic::Int)),
        ValueType::UntypedText => Ok(common_kind(basic, Basic::Text)),
        ValueType::UntypedBool => Ok(common_kind(basic, Basic::Bool)),
        ValueType::Nil => Ok(None),
    }
}

fn common_nil<E: TypeLooks>(
    env: &E,
    alloc: Global,
    other: ValueType<E::Type>,
) -> Result<Option<ValueType<E::Type>>, AllocError>
    ensures { IfOk result (λ v. v ≡ assign.common_nil (E.types env.now) other) }
{
    match other {
        ValueType::Typed(t) => taken(env, alloc, &ValueType::Nil, t),
        ValueType::UntypedInt | ValueType::UntypedText | ValueType::UntypedBool | ValueType::Nil =>
            Ok(None),
    }
}

/// What both of two operands are after an untyped one took the other's type; none where they stay different.
///
/// The Go specification, "Operators": the operand types must be identical unless the operation involves untyped constants, and an
/// untyped constant beside an operand that is none is converted to the type of the other.
///
/// # Errors
///
/// `AllocError` where memory is wanting.
pub fn common<E: TypeLooks>(
    env: &E,
    alloc: Global,
    a: ValueType<E::Type>,
    b: ValueType<E::Type>,
) -> Result<Option<ValueType<E::Type>>, AllocError>
    ensures { IfOk result (λ v. v ≡ assign.common (E.types env.now) a b) }
{
    match a {
        ValueType::Typed(s) => common_typed(env, alloc, s, &b),
        ValueType::UntypedInt => common_untyped(env, alloc, Basic::Int, b),
        ValueType::UntypedText => common_untyped(env, alloc, Basic::Text, b),
        ValueType::UntypedBool => common_untyped(env, alloc, Basic::Bool, b),
        ValueType::Nil => common_nil(env, alloc, b),
    }
}

fn comparable_typed<E: TypeLooks>(
    env: &E,
    alloc: Global,
    s: &E::Type,
    other: &ValueType<E::Type>,
) -> Result<bool, AllocError>
    ensures { IfOk result (λ b. b ≡ assign.comparable_typed (E.types env.now) s.now other.now) }
{
    match other {
        ValueType::Typed(t) => {
            if env.assignable(alloc, s, t)? {
                return Ok(true);
            }
            env.assignable(alloc, t, s)
        }
        ValueType::UntypedInt | ValueType::UntypedText | ValueType::UntypedBool | ValueType::Nil =>
            assignable(env, alloc, other, s),
    }
}

fn comparable_untyped<E: TypeLooks>(
    env: &E,
    alloc: Global,
    basic: Basic,
    other: &ValueType<E::Type>,
) -> Result<bool, AllocError>
    ensures { IfOk result (λ b. b ≡ assign.comparable_untyped (E.types env.now) basic other.now) }
{
    match other {
        ValueType::Typed(t) => untyped_assignable(env, alloc, basic, t),
        ValueType::UntypedInt => Ok(is_basic(basic, Basic::Int)),
        ValueType::UntypedText => Ok(is_basic(basic, Basic::Text)),
        ValueType::UntypedBool => Ok(is_basic(basic, Basic::Bool)),
        ValueType::Nil => Ok(false),
    }
}

fn comparable_nil<E: TypeLooks>(env: &E, other: &ValueType<E::Type>) -> bool
    ensures { result ≡ assign.comparable_nil (E.types env.now) other.now }
{
    match other {
        ValueType::Typed(t) => takes_nil(env.form(t)),
        ValueType::Nil => false,
        ValueType::UntypedInt | ValueType::UntypedText | ValueType::UntypedBool => false,
    }
}

/// Whether two values may be compared: one is assignable to the type of the other, or both are untyped of one kind. `nil` is not
/// comparable with `nil`.
///
/// The Go specification, "Comparison operators": the first operand must be assignable to the type of the second operand, or vice versa.
///
/// # Errors
///
/// `AllocError` where memory is wanting.
pub fn comparable<E: TypeLooks>(
    env: &E,
    alloc: Global,
    a: &ValueType<E::Type>,
    b: &ValueType<E::Type>,
) -> Result<bool, AllocError>
    ensures { IfOk result (λ v. v ≡ assign.comparable (E.types env.now) a.now b.now) }
{
    match a {
        ValueType::Typed(s) => comparable_typed(env, alloc, s, b),
        ValueType::UntypedInt => comparable_untyped(env, alloc, Basic::Int, b),
        ValueType::UntypedText => comparable_untyped(env, alloc, Basic::Text, b),
        ValueType::UntypedBool => comparable_untyped(env, alloc, Basic::Bool, b),
        ValueType::Nil => Ok(comparable_nil(env, b)),
    }
}
