//! What calls have.
ghost use Rattle.std.specs.Prelude.{◌≡◌, IfOk, length};
ghost use Rattle.go_denote_core.specs.Look.{look_of};
ghost use Rattle.go_denote_core.specs.Calls as calls;

use crate::answers::{declared, refused, value_of_type};
use crate::arguments::fits_type;
use crate::conversions::{builtin_call, conversion, of_type};
use crate::looks::Names;
use crate::things::{Answer, Argument, Builtin, Denoted};
use go_text_core::Rule;
use std::alloc::{AllocError, Global};

// What the results of a call denote.
fn of_results<E: Names>(
    env: &E,
    signature: &E::Signature,
) -> Denoted<E::Type, E::Signature, E::Decl>
    ensures { result ≡ calls.of_results signature.now ((E.names env.now).results signature.now) }
{
    let count = env.result_count(signature);
    if count == 0 {
        return Denoted::Nothing;
    }
    if count == 1 {
        return value_of_type(false, env.result_at(signature, 0));
    }
    Denoted::Several(env.again_signature(signature))
}

// Whether an argument breaks no rule at a parameter.
fn fits<E: Names>(
    env: &E,
    alloc: Global,
    argument: &Argument<E::Type>,
    param: &Option<E::Type>,
) -> Result<bool, AllocError>
    ensures { IfOk result (λ fits. fits ≡ calls.fits_parameter (look_of (E.types env.now) (E.names env.now)) argument.now param.now) }
{
    match param {
        None => Ok(true),
        Some(t) => fits_type(env, alloc, t, argument),
    }
}

// Whether no argument breaks a rule, where there are as many as parameters.
fn all_fit<E: Names>(
    env: &E,
    alloc: Global,
    signature: &E::Signature,
    arguments: &[Argument<E::Type>],
) -> Result<bool, AllocError>
    requires { length arguments.now ≡ length ((E.names env.now).params signature.now) }
    ensures { IfOk result (λ fits. fits ≡ calls.all_fit (look_of (E.types env.now) (E.names env.now)) arguments.now ((E.names env.now).params signature.now)) }
{
    for (at, argument) in arguments.iter().enumerate() {
        if !fits(env, alloc, argument, &env.param_at(signature, at))? {
            return Ok(false);
        }
    }
    Ok(true)
}

// What a call of a function or a method has, by its arguments.
fn func_call<E: Names>(
    env: &E,
    alloc: Global,
    decl: E::Decl,
    signature: &E::Signature,
    arguments: &[Argument<E::Type>],
) -> Result<Answer<E::Type, E::Signature, E::Decl, E::Path>, AllocError>
    ensures { IfOk result (λ answer. answer ≡ calls.func_call (look_of (E.types env.now) (E.names env.now)) decl signature.now arguments.now) }
{
    if arguments.len() != env.param_count(signature) {
        return Ok(refused(Rule::C2));
    }
    if !all_fit(env, alloc, signature, arguments)? {
        return Ok(refused(Rule::C3));
    }
    Ok(declared(decl, of_results(env, signature)))
}

// What a predeclared function gives of arguments of which nothing is known.
fn of_builtin<E: Names>(env: &E, builtin: Builtin) -> Denoted<E::Type, E::Signature, E::Decl>
    ensures { result ≡ calls.of_builtin (look_of (E.types env.now) (E.names env.now)) builtin }
{
    match builtin {
        Builtin::Len => value_of_type(false, Some(env.int())),
        Builtin::Panic | Builtin::Print => Denoted::Nothing,
    }
}

// A call of whose arguments nothing is known.
fn free_call<E: Names>(
    env: &E,
    callee: &Denoted<E::Type, E::Signature, E::Decl>,
) -> Answer<E::Type, E::Signature, E::Decl, E::Path>
    ensures { result ≡ calls.free_call (look_of (E.types env.now) (E.names env.now)) callee.now }
{
    match callee {
        Denoted::Type(decl, t) => declared(env.again_decl(decl), of_type(env, t)),
        Denoted::Func(decl, signature) => {
            declared(env.again_decl(decl), of_results(env, signature))
        }
        Denoted::Builtin(decl, builtin) => {
            declared(env.again_decl(decl), of_builtin(env, *builtin))
        }
        Denoted::Refused
        | Denoted::Typeless
        | Denoted::Package(_)
        | Denoted::Value(_)
        | Denoted::Several(_)
        | Denoted::Nothing => refused(Rule::C1),
    }
}

/// What a call has, and what it denotes.
///
/// The first of these rules that it breaks, or else the declaration of what is called, for a conversion that of the type's name: C1,
/// what is called denotes no function, method or type, or is refused; C2, the count of arguments is wrong; C3, an argument is not
/// assignable to its parameter, for `len` it is no string, for `print` and `println` not over `bool`, `int` or `string`; C4, the
/// conversion is not allowed; X1, it makes a string of an integer.
///
/// A refused argument breaks no rule, and a parameter without a type takes each. Where nothing is known of the arguments, they break
/// no rule either. The Go specification, "Calls", "Conversions".
///
/// # Errors
///
/// `AllocError` where memory is wanting.
pub fn call_answer<E: Names>(
    env: &E,
    alloc: Global,
    callee: &Denoted<E::Type, E::Signature, E::Decl>,
    is_free: bool,
    arguments: Vec<Argument<E::Type>>,
) -> Result<Answer<E::Type, E::Signature, E::Decl, E::Path>, AllocError>
    ensures { IfOk result (λ answer. answer ≡ calls.call_answer (look_of (E.types env.now) (E.names env.now)) callee.now is_free arguments.items) }
{
    if is_free {
        return Ok(free_call(env, callee));
    }
    match callee {
        Denoted::Type(decl, t) => conversion(env, alloc, decl, t, arguments),
        Denoted::Func(decl, signature) => {
            func_call(env, alloc, env.again_decl(decl), signature, &arguments)
        }
        Denoted::Builtin(decl, builtin) => {
            builtin_call(env, alloc, env.again_decl(decl), *builtin, arguments)
        }
        Denoted::Refused
        | Denoted::Typeless
        | Denoted::Package(_)
        | Denoted::Value(_)
        | Denoted::Several(_)
        | Denoted::Nothing => Ok(refused(Rule::C1)),
    }
}
