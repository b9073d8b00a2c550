//! What lies under the type of a value.
ghost use Rattle.std.specs.Prelude.{◌≡◌};
ghost use Rattle.go_operand_core.specs.Values as values;

use crate::types::{TypeForm, TypeLooks, ValueType};
use go_term_core::Basic;

pub(crate) fn is_basic(a: Basic, b: Basic) -> bool
    ensures { result ≡ values.is_basic a b }
{
    match a {
        Basic::Bool => matches!(b, Basic::Bool),
        Basic::Int => matches!(b, Basic::Int),
        Basic::Text => matches!(b, Basic::Text),
    }
}

pub(crate) fn is_over(basic: Basic, under: Option<Basic>) -> bool
    ensures { result ≡ values.is_over basic under }
{
    match under {
        Some(other) => is_basic(basic, other),
        None => false,
    }
}

/// Which of bool, int and string a type is over, by the form of what lies under it; none where that is another type, or no type.
///
/// The Go specification, "Underlying types".
pub fn form_basic<T: Drop>(form: TypeForm<T>) -> Option<Basic>
    ensures { result ≡ values.form_basic form }
{
    match form {
        TypeForm::Basic(basic) => Some(basic),
        TypeForm::Nothing | TypeForm::Pointer(_) | TypeForm::Struct | TypeForm::Interface => None,
    }
}

/// Which of bool, int and string lies under the type of a value, or is the kind of an untyped one.
///
/// The Go specification, "Underlying types".
pub fn basic_under<E: TypeLooks>(env: &E, value: &ValueType<E::Type>) -> Option<Basic>
    ensures { result ≡ values.basic_under (E.types env.now) value.now }
{
    match value {
        ValueType::Typed(t) => form_basic(env.form(t)),
        ValueType::UntypedInt => Some(Basic::Int),
        ValueType::UntypedText => Some(Basic::Text),
        ValueType::UntypedBool => Some(Basic::Bool),
        ValueType::Nil => None,
    }
}

pub(crate) fn untyped<T: Drop>(basic: Basic) -> ValueType<T>
    ensures { result ≡ values.untyped basic }
{
    match basic {
        Basic::Bool => ValueType::UntypedBool,
        Basic::Int => ValueType::UntypedInt,
        Basic::Text => ValueType::UntypedText,
    }
}

pub(crate) fn basic_type<E: TypeLooks>(env: &E, basic: Basic) -> E::Type
    ensures { result ≡ values.basic_type (E.types env.now) basic }
{
    match basic {
        Basic::Bool => env.bool(),
        Basic::Int => env.int(),
        Basic::Text => env.string(),
    }
}

/// The type that a value has where none is asked for: its own, or of an untyped value the default type `int`, `string` or `bool`. `nil`
/// has none.
///
/// The Go specification, "Constants": an untyped constant has a default type. "Variable declarations": the predeclared value `nil`
/// cannot be used to initialize a variable with no explicit type.
pub fn default_type<E: TypeLooks>(env: &E, value: &ValueType<E::Type>) -> Option<E::Type>
    ensures { result ≡ values.default_type (E.types env.now) value.now }
{
    match value {
        ValueType::Typed(t) => Some(env.again(t)),
        ValueType::UntypedInt => Some(env.int()),
        ValueType::UntypedText => Some(env.string()),
        ValueType::UntypedBool => Some(env.bool()),
        ValueType::Nil => None,
    }
}
