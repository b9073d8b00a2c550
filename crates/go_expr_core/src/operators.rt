//! What operators make of what their operands denote.
ghost use Rattle.std.specs.Prelude.{◌≡◌, IfOk};
ghost use Rattle.go_expr_core.specs.Operators as operators;

use crate::things::Judged;
use go_denote_core::operand_core::{Operand, binary, refused_binary, refused_unary, unary};
use go_denote_core::text_core::Rule;
use go_denote_core::{Denoted, Names};
use go_tree_nodes::token_core::Operator;
use std::alloc::{AllocError, Global};

fn of_operand<T: Drop, S: Drop, D: Drop>(made: Result<Operand<T>, Rule>) -> Judged<T, S, D>
    ensures { result ≡ operators.of_operand made }
{
    match made {
        Ok(operand) => Judged {
            denoted: Denoted::Value(operand),
            fault: None,
        },
        Err(rule) => Judged {
            denoted: Denoted::Refused,
            fault: Some(rule),
        },
    }
}

// An operand of it is refused.
fn passed<T: Drop, S: Drop, D: Drop>(fault: Option<Rule>) -> Judged<T, S, D>
    ensures { result ≡ operators.passed fault }
{
    Judged {
        denoted: Denoted::Refused,
        fault,
    }
}

fn pointer_type<E: Names>(
    env: &E,
    alloc: Global,
    t: Option<E::Type>,
) -> Result<Option<E::Type>, AllocError>
    ensures { IfOk result (λ p. p ≡ operators.pointer_type (E.types env.now) t) }
{
    match t {
        None => Ok(None),
        Some(t) => Ok(Some(env.pointer_to(alloc, &t)?)),
    }
}

fn is_star(operator: Operator) -> bool
    ensures { result ≡ operators.is_star operator }
{
    matches!(operator, Operator::Star)
}

// An operator before a type.
fn unary_type<E: Names>(
    env: &E,
    alloc: Global,
    operator: Operator,
    decl: E::Decl,
    t: Option<E::Type>,
) -> Result<Judged<E::Type, E::Signature, E::Decl>, AllocError>
    ensures { IfOk result (λ j. j ≡ operators.unary_type (E.types env.now) operator decl t) }
{
    if !is_star(operator) {
        return Ok(passed(refused_unary(operator)));
    }
    let pointer = pointer_type(env, alloc, t)?;
    Ok(Judged {
        denoted: Denoted::Type(decl, pointer),
        fault: None,
    })
}

/// What a unary operator denotes before what its operand denotes, which may be a composite literal.
pub(crate) fn unary_of<E: Names>(
    env: &E,
    alloc: Global,
    operator: Operator,
    is_literal: bool,
    operand: Denoted<E::Type, E::Signature, E::Decl>,
) -> Result<Judged<E::Type, E::Signature, E::Decl>, AllocError>
    ensures { IfOk result (λ j. j ≡ operators.unary_of (E.types env.now) operator is_literal operand) }
{
    match operand {
        Denoted::Value(operand) => {
            Ok(of_operand(unary(env, alloc, operator, is_literal, operand)?))
        }
        Denoted::Type(decl, t) => unary_type(env, alloc, operator, decl, t),
        Denoted::Refused
        | Denoted::Typeless
        | Denoted::Package(_)
        | Denoted::Several(_)
        | Denoted::Nothing
        | Denoted::Func(_, _)
        | Denoted::Builtin(_, _) => Ok(passed(refused_unary(operator))),
    }
}

fn operand_of<T: Drop, S: Drop, D: Drop>(denoted: Denoted<T, S, D>) -> Option<Operand<T>>
    ensures { result ≡ operators.operand_of denoted }
{
    match denoted {
        Denoted::Value(operand) => Some(operand),
        Denoted::Refused
        | Denoted::Typeless
        | Denoted::Package(_)
        | Denoted::Type(_, _)
        | Denoted::Several(_)
        | Denoted::Nothing
        | Denoted::Func(_, _)
        | Denoted::Builtin(_, _) => None,
    }
}

fn binary_operands<E: Names>(
    env: &E,
    alloc: Global,
    operator: Operator,
    a: Option<Operand<E::Type>>,
    b: Option<Operand<E::Type>>,
) -> Result<Judged<E::Type, E::Signature, E::Decl>, AllocError>
    ensures { IfOk result (λ j. j ≡ operators.binary_operands (E.types env.now) operator a b) }
{
    match a {
        None => Ok(passed(refused_binary(operator))),
        Some(a) => match b {
            None => Ok(passed(refused_binary(operator))),
            Some(b) => Ok(of_operand(binary(env, alloc, operator, a, b)?)),
        },
    }
}

/// What a binary operator denotes between what its operands denote.
pub(crate) fn binary_of<E: Names>(
    env: &E,
    alloc: Global,
    operator: Operator,
    a: Denoted<E::Type, E::Signature, E::Decl>,
    b: Denoted<E::Type, E::Signature, E::Decl>,
) -> Result<Judged<E::Type, E::Signature, E::Decl>, AllocError>
    ensures { IfOk result (λ j. j ≡ operators.binary_of (E.types env.now) operator a b) }
{
    binary_operands(env, alloc, operator, operand_of(a), operand_of(b))
}
