//! What names have.
ghost use Rattle.std.specs.Prelude.{◌≡◌, IfOk};
ghost use Rattle.go_denote_core.specs.Look.{look_of};
ghost use Rattle.go_denote_core.specs.Answers as answers;

use crate::looks::Names;
use crate::things::{Answer, Denoted, Found, Outcome, Stand};
use go_operand_core::{Operand, ValueType};
use go_text_core::Rule;
use std::alloc::{AllocError, Global};

/// A declaration, and what it denotes.
pub(crate) fn declared<T: Drop, S: Drop, D: Drop, P: Drop>(
    decl: D,
    denoted: Denoted<T, S, D>,
) -> Answer<T, S, D, P>
    ensures { result ≡ answers.declared decl denoted }
{
    Answer {
        outcome: Outcome::Declared(decl),
        denoted,
    }
}

/// A rule that is broken.
pub(crate) fn refused<T: Drop, S: Drop, D: Drop, P: Drop>(rule: Rule) -> Answer<T, S, D, P>
    ensures { result ≡ answers.refused rule }
{
    Answer {
        outcome: Outcome::Refused(rule),
        denoted: Denoted::Refused,
    }
}

/// A value of a type, where there is one, that is not constant.
pub(crate) fn value_of_type<T: Drop, S: Drop, D: Drop>(
    is_addressable: bool,
    t: Option<T>,
) -> Denoted<T, S, D>
    ensures { result ≡ answers.value_of_type is_addressable t }
{
    match t {
        None => Denoted::Typeless,
        Some(t) => Denoted::Value(Operand {
            value_type: ValueType::Typed(t),
            constant: None,
            addressable: is_addressable,
        }),
    }
}

// A package where one may stand.
fn package_answer<E: Names>(
    env: &E,
    place: Stand,
    decl: E::Decl,
) -> Answer<E::Type, E::Signature, E::Decl, E::Path>
    ensures { result ≡ answers.package_answer place decl }
{
    match place {
        Stand::BeforeDot | Stand::TypeDot => {
            declared(env.again_decl(&decl), Denoted::Package(decl))
        }
        Stand::Type | Stand::Value | Stand::Callee => refused(Rule::N4),
    }
}

/// A type where one may stand.
pub(crate) fn type_answer<E: Names>(
    env: &E,
    place: Stand,
    decl: E::Decl,
    t: Option<E::Type>,
) -> Answer<E::Type, E::Signature, E::Decl, E::Path>
    ensures { result ≡ answers.type_answer place decl t }
{
    match place {
        Stand::Type | Stand::Callee => declared(env.again_decl(&decl), Denoted::Type(decl, t)),
        Stand::TypeDot | Stand::Value | Stand::BeforeDot => refused(Rule::N5),
    }
}

/// A function where one may stand.
pub(crate) fn func_answer<T: Drop, S: Drop, D: Drop, P: Drop>(
    place: Stand,
    decl: D,
    func: Denoted<T, S, D>,
) -> Answer<T, S, D, P>
    ensures { result ≡ answers.func_answer place decl func }
{
    match place {
        Stand::Type | Stand::TypeDot => refused(Rule::N6),
        Stand::Callee => declared(decl, func),
        Stand::Value | Stand::BeforeDot => refused(Rule::X1),
    }
}

// What a constant, a variable or `nil` denotes.
fn of_value<T: Drop, S: Drop, D: Drop>(value: Option<Operand<T>>) -> Denoted<T, S, D>
    ensures { result ≡ answers.of_value value }
{
    match value {
        None => Denoted::Typeless,
        Some(operand) => Denoted::Value(operand),
    }
}

/// A constant, a variable or `nil` where one may stand.
pub(crate) fn value_answer<T: Drop, S: Drop, D: Drop, P: Drop>(
    place: Stand,
    decl: D,
    value: Option<Operand<T>>,
) -> Answer<T, S, D, P>
    ensures { result ≡ answers.value_answer place decl value }
{
    match place {
        Stand::Type | Stand::TypeDot => refused(Rule::N6),
        Stand::Callee => refused(Rule::C1),
        Stand::Value | Stand::BeforeDot => declared(decl, of_value(value)),
    }
}

fn found_answer<E: Names>(
    env: &E,
    place: Stand,
    found: Found<E::Type, E::Signature, E::Decl>,
) -> Answer<E::Type, E::Signature, E::Decl, E::Path>
    ensures { result ≡ answers.found_answer place found }
{
    match found {
        Found::Missing => refused(Rule::N1),
        Found::BadImport => refused(Rule::N9),
        Found::Outside => refused(Rule::N7),
        Found::Package(decl) => package_answer(env, place, decl),
        Found::Type(decl, t) => type_answer(env, place, decl, t),
        Found::Func(decl, s) => func_answer(place, env.again_decl(&decl), Denoted::Func(decl, s)),
        Found::Builtin(decl, b) => {
            func_answer(place, env.again_decl(&decl), Denoted::Builtin(decl, b))
        }
        Found::Value(decl, value) => value_answer(place, decl, value),
    }
}

/// What a name has at a place, and what it denotes there.
///
/// The first of these rules that it breaks, or else its declaration: N8, it is `_`; N1, no declaration of it holds; N9, a refused
/// import binds it; N7, it is predeclared and not usable; N4, it denotes a package and does not stand left of a dot; N5, it denotes
/// a type and stands for an operand or left of a dot; N6, it denotes no type where one is wanted, or no package left of the dot of a
/// type's name; C1, it is called and denotes no function and no type; X1, it denotes a function and is not called.
///
/// # Errors
///
/// `AllocError` where memory is wanting.
pub fn name_answer<E: Names>(
    env: &E,
    alloc: Global,
    place: Stand,
    name: &str,
) -> Result<Answer<E::Type, E::Signature, E::Decl, E::Path>, AllocError>
    ensures { IfOk result (λ answer. answer ≡ answers.name_answer (look_of (E.types env.now) (E.names env.now)) place name.now) }
{
    if name == "_" {
        return Ok(refused(Rule::N8));
    }
    Ok(found_answer(env, place, env.find(alloc, name)?))
}
