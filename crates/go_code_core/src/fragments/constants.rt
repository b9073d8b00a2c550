//! The values of constant expressions.
ghost use Rattle.std.specs.Prelude.{◌≡◌, IfOk};
ghost use Rattle.go_tree_nodes.specs.Shapes.{shape, items_of};
ghost use Rattle.go_code_core.specs.fragments.Constants.{constant_of, converted, folded, folded_binary, folded_name, folded_one, folded_unary, held, some_held};
ghost use Rattle.go_code_core.specs.fragments.Names.{callee_meaning};

use crate::fragments::names::{CodeNames, ConstantWord, Frame, Meaning};
use go_constant_core::{Constant, binary, natural, unary};
use go_tree_nodes::token_core::Operator;
use go_tree_nodes::{Expr, Item};
use std::alloc::{AllocError, Global};

fn constant_of(value: ConstantWord) -> Constant
    ensures { result ≡ constant_of value }
{
    match value {
        ConstantWord::Int(z) => Constant::Int(z),
        ConstantWord::Bool(b) => Constant::Bool(b),
    }
}

fn held(constant: &Constant) -> Option<ConstantWord>
    ensures { result ≡ held constant.now }
{
    match constant {
        Constant::Int(z) => Some(ConstantWord::Int(*z)),
        Constant::Bool(b) => Some(ConstantWord::Bool(*b)),
        Constant::Text(_) => None,
        Constant::Unknown => None,
    }
}

fn some_held(constant: Option<Constant>) -> Option<ConstantWord>
    ensures { result ≡ some_held constant }
{
    match constant {
        Some(constant) => held(&constant),
        None => None,
    }
}

// The value of a unary operator on a constant.
fn fold_unary(operator: Operator, operand: Option<ConstantWord>) -> Option<ConstantWord>
    ensures { result ≡ folded_unary operator operand }
{
    match operand {
        Some(value) => some_held(unary(operator, &constant_of(value))),
        None => None,
    }
}

// The value of a binary operator on two constants.
fn fold_binary(
    alloc: Global,
    operator: Operator,
    left: Option<ConstantWord>,
    right: Option<ConstantWord>,
) -> Result<Option<ConstantWord>, AllocError>
    ensures { IfOk result (λ v. v ≡ folded_binary operator left right) }
{
    match left {
        Some(a) => match right {
            Some(b) => Ok(some_held(binary(alloc, operator, &constant_of(a), &constant_of(b))?)),
            None => Ok(None),
        },
        None => Ok(None),
    }
}

fn fold_name(meaning: Meaning) -> Option<ConstantWord>
    ensures { result ≡ folded_name meaning }
{
    match meaning {
        Meaning::Constant(value) => Some(value),
        _ => None,
    }
}

fn convert(called: Meaning, value: Option<ConstantWord>) -> Option<ConstantWord>
    ensures { result ≡ converted called value }
{
    match called {
        Meaning::Type(_) => value,
        _ => None,
    }
}

/// What is called: a name, or what is selected, in parentheses too. `Other` where the callee is anything else.
///
/// The Go specification, "Calls", "Conversions".
pub fn called<N: CodeNames>(names: &N, callee: &Expr) -> Meaning
    ensures { result ≡ callee_meaning (N.looks names.now) (shape callee.now) }
{
    match callee {
        Expr::Name(ident) => names.meaning(ident.span.start as usize),
        Expr::Select(select) => names.meaning(select.name.span.start as usize),
        Expr::Paren(_, inner, _) => called(names, inner),
        Expr::Integer(_, _) | Expr::Text(_) | Expr::Unary(_, _, _) | Expr::Binary(_) =>
            return Meaning::Other,
        Expr::Call(_) => return Meaning::Other,
        Expr::Literal(_) => return Meaning::Other,
        Expr::StructLiteral(_) => return Meaning::Other,
    }
}

/// The value of an expression, if it is a constant one over `int` or `bool`. None too where a value on the way to it is out of range.
///
/// The Go specification, "Constant expressions".
///
/// # Errors
///
/// `AllocError` where memory is wanting.
#[cycle(folding)]
pub fn folded<N: CodeNames>(
    frame: &Frame<'_, N>,
    expr: &Expr,
) -> Result<Option<ConstantWord>, AllocError>
    ensures { IfOk result (λ v. v ≡ folded (N.looks frame.now.names.now) (shape expr.now)) }
{
    match expr {
        Expr::Integer(n, _) => Ok(held(&natural(*n))),
        Expr::Name(ident) => Ok(fold_name(frame.names.meaning(ident.span.start as usize))),
        Expr::Paren(_, inner, _) => folded(frame, inner),
        Expr::Unary(operator, _, operand) => {
            let value = folded(frame, operand)?;
            Ok(fold_unary(*operator, value))
        }
        Expr::Binary(binary) => {
            let left = folded(frame, &binary.left)?;
            let right = folded(frame, &binary.right)?;
            fold_binary(frame.alloc, binary.operator, left, right)
        }
        Expr::Select(select) => Ok(fold_name(frame.names.meaning(select.name.span.start as usize))),
        Expr::Call(call) => {
            let value = folded_one(frame, &call.args)?;
            Ok(convert(called(frame.names, &call.callee), value))
        }
        Expr::Text(_) => Ok(None),
        Expr::Literal(_) => Ok(None),
        Expr::StructLiteral(_) => Ok(None),
    }
}

// The value of the one argument.
#[cycle(folding)]
fn folded_one<N: CodeNames>(
    frame: &Frame<'_, N>,
    items: &Vec<Item>,
) -> Result<Option<ConstantWord>, AllocError>
    ensures { IfOk result (λ v. v ≡ folded_one (N.looks frame.now.names.now) (items_of items.now.items)) }
{
    match items.as_slice() {
        [] => Ok(None),
        [item] => folded(frame, &item.value),
        _ => Ok(None),
    }
}
