//! Constants outside 64 bits.

use go_case_core::diagnostic_core::{Message, Words};
use go_case_core::judge_core::{Judged, operand_type};
use go_case_core::{Case, mark};
use go_operand_core::Operand;
use go_operand_core::constant_core::Constant;
use go_term_core::{TypeTerm, identical};
use go_tree_nodes::token_core::Operator;
use go_tree_nodes::{BinaryExpr, Expr};
use std::alloc::{AllocError, Global};

// The constant integer that is denoted; none where it is none, or is not known.
fn known_int(judged: &Judged) -> Option<&Operand<TypeTerm>> {
    let operand = judged.value()?;
    match &operand.constant {
        Some(Constant::Int(_)) => Some(operand),
        Some(Constant::Bool(_)) => None,
        Some(Constant::Text(_)) => None,
        Some(Constant::Unknown) => None,
        None => None,
    }
}

// Whether two operands may stand on the sides of an operator: one of them is untyped, or their types are identical.
fn are_alike(one: &Operand<TypeTerm>, other: &Operand<TypeTerm>) -> bool {
    match (operand_type(one), operand_type(other)) {
        (Some(left), Some(right)) => identical(left, right),
        _ => true,
    }
}

// Whether the operands of a sum, a difference or a product are constant integers that fit one another.
fn has_known_sides(
    alloc: Global,
    case: &Case<'_>,
    binary: &BinaryExpr,
) -> Result<bool, AllocError> {
    if !matches!(
        binary.operator,
        Operator::Plus | Operator::Minus | Operator::Star
    ) {
        return Ok(false);
    }
    let left = case.value(alloc, &binary.left)?;
    let right = case.value(alloc, &binary.right)?;
    match (known_int(&left), known_int(&right)) {
        (Some(one), Some(other)) => Ok(are_alike(one, other)),
        _ => Ok(false),
    }
}

// Whether what an expression makes is made of constant integers alone that fit its operator.
fn has_known_operands(alloc: Global, case: &Case<'_>, expr: &Expr) -> Result<bool, AllocError> {
    match expr {
        Expr::Binary(binary) => has_known_sides(alloc, case, binary),
        Expr::Unary(Operator::Minus, _, inner) => {
            let judged = case.value(alloc, inner)?;
            Ok(known_int(&judged).is_some())
        }
        _ => Ok(false),
    }
}

/// The narrowest of some expressions, the widest first, that is outside the range of its type: it is refused, and its operands are constant integers that fit its
/// operator. None where none is.
///
/// # Errors
///
/// `AllocError` where memory is wanting.
pub(crate) fn overflowing<'t>(
    alloc: Global,
    case: &Case<'_>,
    spine: &[&'t Expr],
) -> Result<Option<&'t Expr>, AllocError> {
    let mut found: Option<&'t Expr> = None;
    for part in spine {
        if has_known_operands(alloc, case, *part)? {
            let judged = case.value(alloc, *part)?;
            if judged.is_refused() {
                found = Some(*part);
            }
        }
    }
    Ok(found)
}

/// A constant outside 64 bits.
///
/// # Errors
///
/// `AllocError` where memory is wanting.
pub(crate) fn outside(alloc: Global, case: &Case<'_>, expr: &Expr) -> Result<Message, AllocError> {
    let written = case.shown(alloc, expr)?;
    let mut message = Message::of(
        Words::new(alloc)
            .and(written.as_str())
            .and(" is outside the range of int"),
    )?;
    mark(expr, &mut message);
    message.note(Words::new(alloc).and(
        "constants have 64 bits, from -9223372036854775808 to 9223372036854775807",
    ))?;
    Ok(message)
}
