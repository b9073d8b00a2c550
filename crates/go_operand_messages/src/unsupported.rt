//! What is said of forms of Go that are not supported.

use crate::initial::{initialised, not_initial};
use crate::operators::{some_of, spine_of};
use crate::overflow::{outside, overflowing};
use go_case_core::diagnostic_core::{Message, Words};
use go_case_core::judge_core::{Judged, Piece};
use go_case_core::{Case, mark};
use go_tree_nodes::token_core::Operator;
use go_tree_nodes::{Expr, Simple};
use std::alloc::{AllocError, Global};

/// What is said of an expression that breaks the rule X1; none where no more is known of it.
///
/// # Errors
///
/// `AllocError` where memory is wanting.
pub fn of_unsupported(alloc: Global, case: &Case<'_>) -> Result<Option<Message>, AllocError> {
    if let Some(message) = of_mark(alloc, case)? {
        return Ok(Some(message));
    }
    let Some(expr) = case.beginning(alloc)? else {
        return Ok(None);
    };
    if has_bit_operator(expr) || is_bit_update(case) {
        return some_of(not_yet(alloc, case, expr, "shifts and bit operators"));
    }
    let spine = spine_of(alloc, expr)?;
    if let Some(part) = overflowing(alloc, case, &spine)? {
        return some_of(outside(alloc, case, part));
    }
    match initialised(case) {
        Some(spec) => some_of(not_initial(alloc, case, spec, expr)),
        None => some_of(outside(alloc, case, expr)),
    }
}

// A form by the expression whose mark stands at the place: a conversion of an int to a string, a bit operator in front, or a function that is not called.
fn of_mark(alloc: Global, case: &Case<'_>) -> Result<Option<Message>, AllocError> {
    let Some(expr) = case.marked(alloc, case.here.offset)? else {
        return Ok(None);
    };
    match expr {
        Expr::Call(_) => {
            let form = "conversions of an int to a string";
            some_of(not_yet(alloc, case, expr, form))
        }
        Expr::Unary(Operator::Caret, _, _) => {
            some_of(not_yet(alloc, case, expr, "shifts and bit operators"))
        }
        Expr::Name(_) => named_function(alloc, case, expr),
        Expr::Select(_) => function_value(alloc, case, expr),
        _ => Ok(None),
    }
}

// Whether an expression begins with a name that is called.
fn begins_with_call(expr: &Expr) -> bool {
    match expr {
        Expr::Call(call) => {
            matches!(&call.callee, Expr::Name(_)) || begins_with_call(&call.callee)
        }
        Expr::Binary(binary) => begins_with_call(&binary.left),
        Expr::Select(select) => begins_with_call(&select.operand),
        _ => false,
    }
}

// A function that a name at the place denotes and that is not called there; none where it is called, or the name denotes none.
fn named_function(
    alloc: Global,
    case: &Case<'_>,
    name: &Expr,
) -> Result<Option<Message>, AllocError> {
    if let Some(widest) = case.beginning(alloc)? {
        if begins_with_call(widest) {
            return Ok(None);
        }
    }
    function_value(alloc, case, name)
}

// Whether a function is denoted.
fn is_function(judged: &Judged) -> bool {
    judged.signature().is_some() || matches!(judged, Judged::Builtin(_))
}

// A function or a method that is not called; none where the expression is none.
fn function_value(
    alloc: Global,
    case: &Case<'_>,
    expr: &Expr,
) -> Result<Option<Message>, AllocError> {
    let judged = case.callee(alloc, expr)?;
    if !is_function(&judged) {
        return Ok(None);
    }
    let mut message = not_yet(alloc, case, expr, "functions as values")?;
    let written = case.shown(alloc, expr)?;
    message.help(
        Words::new(alloc)
            .and("to call it, write ")
            .and(written.as_str())
            .and("(..)"),
    )?;
    Ok(Some(message))
}

// A form of Go that is not supported.
fn not_yet(alloc: Global, case: &Case<'_>, expr: &Expr, form: &str) -> Result<Message, AllocError> {
    let written = case.shown(alloc, expr)?;
    let mut message = Message::of(
        Words::new(alloc)
            .and(written.as_str())
            .and(": ")
            .and(form)
            .and(": Go has these, govisd does not support them yet"),
    )?;
    mark(expr, &mut message);
    Ok(message)
}

// Whether an operator is a shift or goes by bits.
fn is_bit_operator(operator: Operator) -> bool {
    matches!(
        operator,
        Operator::ShiftLeft
            | Operator::ShiftRight
            | Operator::And
            | Operator::Or
            | Operator::Caret
            | Operator::AndNot
    )
}

// Whether a shift or a bit operator stands between operands of an expression that begin where it begins.
fn has_bit_operator(expr: &Expr) -> bool {
    match expr {
        Expr::Binary(binary) => {
            is_bit_operator(binary.operator) || has_bit_operator(&binary.left)
        }
        _ => false,
    }
}

// Whether the statement that begins at the place is a shift or a bit operator with `=`.
fn is_bit_update(case: &Case<'_>) -> bool {
    match case.setting.piece() {
        Some(piece) if piece.start() == case.here.offset => is_bit_update_in(piece),
        _ => false,
    }
}

// Whether a piece is a shift or a bit operator with `=`.
fn is_bit_update_in(piece: Piece<'_>) -> bool {
    match piece {
        Piece::Simple(Simple::Update(update)) => matches!(
            update.operator,
            Operator::ShiftLeftAssign
                | Operator::ShiftRightAssign
                | Operator::AndNotAssign
                | Operator::AndAssign
                | Operator::OrAssign
                | Operator::CaretAssign
        ),
        _ => false,
    }
}
