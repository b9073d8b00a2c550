//! What is said of constants that are none.

use crate::operators::{some_of, spine_of};
use crate::overflow::{outside, overflowing};
use crate::types::names_extent;
use go_case_core::diagnostic_core::{Message, Words};
use go_case_core::judge_core::{Extent, Judged, Piece, inside};
use go_case_core::{Case, is_nil, mark};
use go_operand_core::constant_core::Constant;
use go_tree_nodes::token_core::Operator;
use go_tree_nodes::{Expr, ValueKind, ValueSpec};
use std::alloc::{AllocError, Global};

/// What is said of an expression or a specification that breaks the rule Y7; none where no more is known of it.
///
/// # Errors
///
/// `AllocError` where memory is wanting.
pub fn of_constant(alloc: Global, case: &Case<'_>) -> Result<Option<Message>, AllocError> {
    if is_declared_name(case) {
        return some_of(Message::of(
            Words::new(alloc)
                .and(case.here.word())
                .and(" is defined through itself"),
        ));
    }
    let Some(expr) = case.beginning(alloc)? else {
        return Ok(None);
    };
    if let Some(message) = division(expr, alloc, case)? {
        return Ok(Some(message));
    }
    let spine = spine_of(alloc, expr)?;
    if let Some(part) = overflowing(alloc, case, &spine)? {
        return some_of(outside(alloc, case, part));
    }
    not_constant(alloc, case, expr)
}

// Whether the place of a fault is that of a name which a specification declares.
fn is_declared_name(case: &Case<'_>) -> bool {
    match case.setting.piece() {
        Some(Piece::Spec(_, spec)) => declares_at(spec, case.here.offset),
        _ => false,
    }
}

// Whether a specification declares a name at an offset.
fn declares_at(spec: &ValueSpec, offset: usize) -> bool {
    if spec.names.first.span.start as usize == offset {
        return true;
    }
    for next in &spec.names.more {
        if next.ident.span.start as usize == offset {
            return true;
        }
    }
    false
}

// Whether what is denoted is the constant 0.
fn is_zero(judged: &Judged) -> bool {
    match judged.value() {
        Some(operand) => match &operand.constant {
            Some(Constant::Int(value)) => *value == 0,
            Some(Constant::Bool(_)) => false,
            Some(Constant::Text(_)) => false,
            Some(Constant::Unknown) => false,
            None => false,
        },
        None => false,
    }
}

// The first division by the constant 0 among the left operands of an expression.
fn division(expr: &Expr, alloc: Global, case: &Case<'_>) -> Result<Option<Message>, AllocError> {
    let Expr::Binary(binary) = expr else {
        return Ok(None);
    };
    if binary.operator == Operator::Slash || binary.operator == Operator::Percent {
        let right = case.value(alloc, &binary.right)?;
        if is_zero(&right) {
            let written = case.shown(alloc, expr)?;
            let words = Words::new(alloc).and(written.as_str());
            let mut message = Message::of(words.and(": division by 0"))?;
            mark(expr, &mut message);
            return Ok(Some(message));
        }
    }
    division(&binary.left, alloc, case)
}

// The type that a specification of constants writes, as it stands there; nothing where it writes none.
fn written_type<'s>(case: &Case<'s>) -> &'s str {
    match case.setting.piece() {
        Some(Piece::Spec(ValueKind::Const, spec)) => type_written(case, spec),
        _ => "",
    }
}

/// The type that a specification writes, as it stands between its names and its values; nothing where it writes none, or gives no values.
pub(crate) fn type_written<'s>(case: &Case<'s>, spec: &ValueSpec) -> &'s str {
    if spec.type_expr.is_none() {
        return "";
    }
    let Some(values) = &spec.values else {
        return "";
    };
    let at = Extent {
        start: names_extent(&spec.names).end,
        end: values.assign.start as usize,
    };
    case.source(at).trim()
}

// Why an expression is not constant, by its form.
fn why_not(expr: &Expr) -> &'static str {
    match inside(expr) {
        Expr::Call(_) => " is a call, not a constant",
        Expr::Literal(_) => " is a struct: a constant is a bool, an int or a string",
        Expr::StructLiteral(_) => " is a struct: a constant is a bool, an int or a string",
        Expr::Name(_) => " is a variable, not a constant",
        Expr::Select(_) => " is a variable or a field, not a constant",
        Expr::Integer(_, _) => " is not constant",
        Expr::Text(_) => " is not constant",
        Expr::Paren(_, _, _) => " is not constant",
        Expr::Unary(_, _, _) => " is not constant",
        Expr::Binary(_) => " is not constant",
    }
}

// An expression that is a value and no constant, or a constant of a type that constants may not have.
fn not_constant(
    alloc: Global,
    case: &Case<'_>,
    expr: &Expr,
) -> Result<Option<Message>, AllocError> {
    let judged = case.value(alloc, expr)?;
    let Some(operand) = judged.value() else {
        return Ok(None);
    };
    if operand.constant.is_some() {
        return some_of(other_type(alloc, case));
    }
    let written = case.shown(alloc, expr)?;
    let why = if is_nil(operand) {
        " is not constant"
    } else {
        why_not(expr)
    };
    let mut message = Message::of(Words::new(alloc).and(written.as_str()).and(why))?;
    mark(expr, &mut message);
    Ok(Some(message))
}

// A constant whose specification writes a type that constants may not have: what it is given is a constant.
fn other_type(alloc: Global, case: &Case<'_>) -> Result<Message, AllocError> {
    Message::of(
        Words::new(alloc)
            .and("a constant cannot be of type ")
            .and(written_type(case))
            .and(": its type is bool, int, string or one defined from these"),
    )
}
