//! Composite literals as a whole, and their elements.
ghost use Rattle.std.specs.Prelude.{◌≡◌, IfOk};
ghost use Rattle.std.specs.List.{list_all};
ghost use Rattle.go_denote_core.specs.composite.Look.{literal_look_of};
ghost use Rattle.go_denote_core.specs.composite.Literals as literals;

use crate::Denoted;
use crate::composite::looks::Literals;
use crate::composite::things::{Keys, Mode};
use go_operand_core::{Operand, TypeForm, ValueType, assignable_to};
use go_text_core::Rule;
use std::alloc::{AllocError, Global};

/// The type of a literal, by what the name of its type denotes: none where this denotes no type.
pub fn literal_type<T: Drop, S: Drop, D: Drop>(denoted: Denoted<T, S, D>) -> Option<T>
    ensures { result ≡ literals.literal_type denoted }
{
    match denoted {
        Denoted::Type(_, t) => t,
        Denoted::Refused
        | Denoted::Typeless
        | Denoted::Package(_)
        | Denoted::Value(_)
        | Denoted::Several(_)
        | Denoted::Nothing
        | Denoted::Func(_, _)
        | Denoted::Builtin(_, _) => None,
    }
}

/// What a literal of a type denotes: a value of the type, neither constant nor addressable, whatever rules its keys and elements
/// break; without a type it is a refused operand.
pub fn literal_denotes<T: Drop, S: Drop, D: Drop>(t: Option<T>) -> Denoted<T, S, D>
    ensures { result ≡ literals.literal_denotes t }
{
    match t {
        None => Denoted::Refused,
        Some(t) => Denoted::Value(Operand {
            value_type: ValueType::Typed(t),
            constant: None,
            addressable: false,
        }),
    }
}

/// Which elements have keys, by how many elements there are and how many of them have one.
pub fn keys_among(count: usize, keyed: usize) -> Keys
    ensures { result ≡ literals.keys_among count keyed }
{
    if keyed == 0 {
        return Keys::None;
    }
    if keyed == count {
        Keys::All
    } else {
        Keys::Some
    }
}

/// Whether a type is a struct type.
pub(crate) fn is_struct<E: Literals>(env: &E, t: &E::Type) -> bool
    ensures { result ≡ literals.is_struct ((E.types env.now).form t.now) }
{
    matches!(env.form(t), TypeForm::Struct)
}

// Whether all fields of a struct type are visible.
fn all_visible<E: Literals>(env: &E, t: &E::Type) -> bool
    ensures { result ≡ list_all literals.is_visible_field ((E.literals env.now).fields t.now) }
{
    for at in 0..env.field_count(t) {
        if !env.field_at(t, at).is_visible {
            return false;
        }
    }
    true
}

// The rule that a literal without keys breaks.
fn unkeyed_rule<E: Literals>(env: &E, t: &E::Type, count: usize) -> Option<Rule>
    ensures { result ≡ literals.unkeyed_rule count ((E.literals env.now).fields t.now) }
{
    if count == 0 {
        return None;
    }
    if count != env.field_count(t) {
        return Some(Rule::F6);
    }
    if all_visible(env, t) {
        None
    } else {
        Some(Rule::F7)
    }
}

// The rule that a literal of a struct type breaks as a whole.
fn struct_rule<E: Literals>(env: &E, t: &E::Type, keys: Keys, count: usize) -> Option<Rule>
    ensures { result ≡ literals.struct_rule keys count ((E.literals env.now).fields t.now) }
{
    match keys {
        Keys::Some => Some(Rule::F5),
        Keys::All => None,
        Keys::None => unkeyed_rule(env, t, count),
    }
}

/// The rule that a literal breaks as a whole, by its type, its keys and the number of its elements.
///
/// The first of these: F8, its type is refused or no struct type; F5, some elements have keys and some have not; F6, no element has a
/// key, and there are elements, but not one for each field; F7, no element has a key, and one is for a field that is not visible.
/// The Go specification, "Composite literals".
pub fn literal_rule<E: Literals>(
    env: &E,
    t: &Option<E::Type>,
    keys: Keys,
    count: usize,
) -> Option<Rule>
    ensures { result ≡ literals.literal_rule (literal_look_of (E.types env.now) (E.names env.now) (E.literals env.now)) t.now keys count }
{
    match t {
        None => Some(Rule::F8),
        Some(t) => {
            if is_struct(env, t) {
                struct_rule(env, t, keys, count)
            } else {
                Some(Rule::F8)
            }
        }
    }
}

// How the elements of a literal of a struct type are tested.
fn struct_mode<E: Literals>(env: &E, t: &E::Type, keys: Keys, count: usize) -> Mode
    ensures { result ≡ literals.struct_mode keys count ((E.literals env.now).fields t.now) }
{
    match keys {
        Keys::Some => Mode::Untested,
        Keys::All => Mode::ByKey,
        Keys::None => {
            if count == env.field_count(t) {
                Mode::InOrder
            } else {
                Mode::Untested
            }
        }
    }
}

/// How the elements of a literal are tested: by keys, where each has one; in order, where none has and there are as many as fields;
/// and else not at all, as where the type is no struct type.
pub fn literal_mode<E: Literals>(env: &E, t: &Option<E::Type>, keys: Keys, count: usize) -> Mode
    ensures { result ≡ literals.literal_mode (literal_look_of (E.types env.now) (E.names env.now) (E.literals env.now)) t.now keys count }
{
    match t {
        None => Mode::Untested,
        Some(t) => {
            if is_struct(env, t) {
                struct_mode(env, t, keys, count)
            } else {
                Mode::Untested
            }
        }
    }
}

// The type of the field of a number, where there is such a field and it has a type.
fn field_type_at<E: Literals>(env: &E, t: &E::Type, at: usize) -> Option<E::Type>
    ensures { result ≡ literals.field_type_at ((E.literals env.now).fields t.now) at }
{
    if at < env.field_count(t) {
        env.field_at(t, at).field_type
    } else {
        None
    }
}

/// The type that an element is to be assignable to, by how the elements are tested, its number from 0, and the target that its key
/// gives: none where it is not tested, or its field has no type.
pub fn element_target<E: Literals>(
    env: &E,
    t: &Option<E::Type>,
    mode: Mode,
    at: usize,
    by_key: Option<E::Type>,
) -> Option<E::Type>
    ensures { result ≡ literals.element_target (literal_look_of (E.types env.now) (E.names env.now) (E.literals env.now)) t.now mode at by_key }
{
    match mode {
        Mode::Untested => None,
        Mode::ByKey => by_key,
        Mode::InOrder => match t {
            None => None,
            Some(t) => {
                if is_struct(env, t) {
                    field_type_at(env, t, at)
                } else {
                    None
                }
            }
        },
    }
}

/// Whether an element breaks Y4: it is a single value, and not assignable to the type that is wanted. Where no type is wanted, or the
/// element is no single value, it does not break this rule.
///
/// # Errors
///
/// `AllocError` where memory is wanting.
pub fn misfits<E: Literals>(
    env: &E,
    alloc: Global,
    target: &Option<E::Type>,
    denoted: &Denoted<E::Type, E::Signature, E::Decl>,
) -> Result<bool, AllocError>
    ensures { IfOk result (λ b. b ≡ literals.misfits (literal_look_of (E.types env.now) (E.names env.now) (E.literals env.now)) target.now denoted.now) }
{
    match target {
        None => Ok(false),
        Some(t) => match denoted {
            Denoted::Value(operand) => Ok(!assignable_to(env, alloc, operand, t)?),
            Denoted::Refused
            | Denoted::Typeless
            | Denoted::Package(_)
            | Denoted::Type(_, _)
            | Denoted::Several(_)
            | Denoted::Nothing
            | Denoted::Func(_, _)
            | Denoted::Builtin(_, _) => Ok(false),
        },
    }
}
