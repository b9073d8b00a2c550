//! Operators on constants.
ghost use Rattle.std.specs.Prelude.{◌≡◌, IfOk, OnOk};
ghost use Rattle.go_constant_core.specs.Values as values;

use crate::ints;
use crate::texts::{ConstantText, is_less, is_same, joined};
use crate::values::Constant;
use go_token_core::Operator;
use std::alloc::{AllocError, Global};

fn of_ints(operator: Operator, a: i64, b: i64) -> Option<Constant>
    ensures { result ≡ values.of_ints operator a b }
{
    match operator {
        Operator::Plus => ints::sum(a, b),
        Operator::Minus => ints::difference(a, b),
        Operator::Star => ints::product(a, b),
        Operator::Slash => ints::quotient(a, b),
        Operator::Percent => ints::remainder(a, b),
        Operator::Equal => Some(Constant::Bool(ints::is_same(a, b))),
        Operator::NotEqual => Some(Constant::Bool(!ints::is_same(a, b))),
        Operator::Less => Some(Constant::Bool(ints::is_less(a, b))),
        Operator::LessEqual => Some(Constant::Bool(!ints::is_less(b, a))),
        Operator::Greater => Some(Constant::Bool(ints::is_less(b, a))),
        Operator::GreaterEqual => Some(Constant::Bool(!ints::is_less(a, b))),
        _ => Some(Constant::Unknown),
    }
}

fn of_texts(
    alloc: Global,
    operator: Operator,
    a: &ConstantText,
    b: &ConstantText,
) -> Result<Constant, AllocError>
    ensures value { IfOk result (λ constant. constant ≡ values.of_texts operator a.now b.now) }
    ensures bounded { OnOk result (values.IsBounded (Some (values.of_texts operator a.now b.now))) }
{
    match operator {
        Operator::Plus => Ok(Constant::Text(joined(alloc, a, b)?)),
        Operator::Equal => Ok(Constant::Bool(is_same(a, b))),
        Operator::NotEqual => Ok(Constant::Bool(!is_same(a, b))),
        Operator::Less => Ok(Constant::Bool(is_less(a, b))),
        Operator::LessEqual => Ok(Constant::Bool(!is_less(b, a))),
        Operator::Greater => Ok(Constant::Bool(is_less(b, a))),
        Operator::GreaterEqual => Ok(Constant::Bool(!is_less(a, b))),
        _ => Ok(Constant::Unknown),
    }
}

fn of_bools(operator: Operator, a: bool, b: bool) -> Constant
    ensures { result ≡ values.of_bools operator a b }
{
    match operator {
        Operator::LogicalAnd => Constant::Bool(a && b),
        Operator::LogicalOr => Constant::Bool(a || b),
        Operator::Equal => Constant::Bool(if a { b } else { !b }),
        Operator::NotEqual => Constant::Bool(if a { !b } else { b }),
        _ => Constant::Unknown,
    }
}

/// The value of a binary operator on two constants; none where it is an integer outside 64 bits with a sign.
///
/// Integers have `+ - * / %`, of which `/` truncates toward zero, `== != < <= > >=`; texts `+`, which joins, and the comparisons, by
/// bytes; booleans `&& || == !=`. The value is unknown where an operand is, where the two are not of one kind, where the operator is
/// none of these, and for a division by 0: those who ask have refused all but the first. No text is joined of more than 1,048,576 bytes. The Go specification, "Arithmetic operators",
/// "Integer operators", "String concatenation", "Comparison operators", "Logical operators".
///
/// # Errors
///
/// `AllocError` where memory is wanting for a joined text, or where it would have more bytes than any text of a program.
pub fn binary(
    alloc: Global,
    operator: Operator,
    a: &Constant,
    b: &Constant,
) -> Result<Option<Constant>, AllocError>
    ensures value { IfOk result (λ value. value ≡ values.binary operator a.now b.now) }
    ensures bounded { OnOk result (values.IsBounded (values.binary operator a.now b.now)) }
{
    match a {
        Constant::Unknown => Ok(Some(Constant::Unknown)),
        Constant::Int(x) => match b {
            Constant::Int(y) => Ok(of_ints(operator, *x, *y)),
            Constant::Unknown | Constant::Text(_) | Constant::Bool(_) => Ok(Some(
                Constant::Unknown,
            )),
        },
        Constant::Text(x) => match b {
            Constant::Text(y) => Ok(Some(of_texts(alloc, operator, x, y)?)),
            Constant::Unknown | Constant::Int(_) | Constant::Bool(_) => Ok(Some(Constant::Unknown)),
        },
        Constant::Bool(x) => match b {
            Constant::Bool(y) => Ok(Some(of_bools(operator, *x, *y))),
            Constant::Unknown | Constant::Int(_) | Constant::Text(_) => Ok(Some(Constant::Unknown)),
        },
    }
}

fn of_int(operator: Operator, a: i64) -> Option<Constant>
    ensures { result ≡ values.of_int operator a }
{
    match operator {
        Operator::Plus => Some(Constant::Int(a)),
        Operator::Minus => ints::negated(a),
        _ => Some(Constant::Unknown),
    }
}

/// The value of a unary operator on a constant; none where it is an integer outside 64 bits with a sign.
///
/// Integers have `+` and `-`, booleans `!`. The value is unknown where the operand is, and where the operator is none of these. The Go
/// specification, "Arithmetic operators", "Logical operators".
pub fn unary(operator: Operator, a: &Constant) -> Option<Constant>
    ensures { result ≡ values.unary operator a.now }
{
    match a {
        Constant::Int(x) => of_int(operator, *x),
        Constant::Bool(x) => match operator {
            Operator::Not => Some(Constant::Bool(!*x)),
            _ => Some(Constant::Unknown),
        },
        Constant::Text(_) | Constant::Unknown => Some(Constant::Unknown),
    }
}
