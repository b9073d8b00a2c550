//! What is said of initialisers of package variables that are not constant.

use crate::constants::type_written;
use go_case_core::diagnostic_core::{Message, Words};
use go_case_core::judge_core::{Extent, Judged, Piece, TypeText, inside, operand_type};
use go_case_core::{Case, is_nil, mark, type_of};
use go_expr_core::start;
use go_operand_core::Operand;
use go_term_core::TypeTerm;
use go_tree_nodes::text_core::is_blank;
use go_tree_nodes::{Expr, Exprs, ValueKind, ValueSpec, type_name_start};
use std::alloc::{AllocError, Global};

// Whether one of some expressions begins at an offset.
fn has_start(exprs: &Exprs, offset: usize) -> bool {
    if start(&exprs.first) == offset {
        return true;
    }
    for next in &exprs.more {
        if start(&next.expr) == offset {
            return true;
        }
    }
    false
}

/// The specification of package variables of which an initialiser begins at the place; none where none does.
pub(crate) fn initialised<'s>(case: &Case<'s>) -> Option<&'s ValueSpec> {
    if case.setting.func().is_some() {
        return None;
    }
    let Some(Piece::Spec(ValueKind::Var, spec)) = case.setting.piece() else {
        return None;
    };
    let Some(values) = &spec.values else {
        return None;
    };
    if has_start(&values.exprs, case.here.offset) {
        return Some(spec);
    }
    None
}

/// An initialiser of package variables that is not constant, with what to write in its place.
///
/// # Errors
///
/// `AllocError` where memory is wanting.
pub(crate) fn not_initial(
    alloc: Global,
    case: &Case<'_>,
    spec: &ValueSpec,
    expr: &Expr,
) -> Result<Message, AllocError> {
    let written = case.shown(alloc, expr)?;
    let mut message = Message::of(
        Words::new(alloc).and(written.as_str()).and(
            ": the initialiser of a package variable must be a constant: Go has others, govisd does not support them yet",
        ),
    )?;
    mark(expr, &mut message);
    let judged = case.value(alloc, expr)?;
    if !spec.names.more.is_empty() {
        add_apart(alloc, &judged, &mut message)?;
    } else if may_be_set(&judged) {
        add_instead(alloc, case, spec, expr, &judged, &mut message)?;
    }
    Ok(message)
}

// Whether a variable may be set to what is denoted elsewhere: it is a value, or a variable that has no type.
fn may_be_set(judged: &Judged) -> bool {
    judged.value().is_some() || matches!(judged, Judged::Typeless)
}

// Adds what to write in place of the specification of several variables, of which one is given what is denoted; nothing where that is refused.
fn add_apart(alloc: Global, judged: &Judged, message: &mut Message) -> Result<(), AllocError> {
    if matches!(judged, Judged::Refused) {
        return Ok(());
    }
    message.help(Words::new(alloc).and(
        "declare the variables with their types alone, and set them in func init()",
    ))
}

// Adds what to write in place of the specification of one variable.
fn add_instead(
    alloc: Global,
    case: &Case<'_>,
    spec: &ValueSpec,
    expr: &Expr,
    judged: &Judged,
    message: &mut Message,
) -> Result<(), AllocError> {
    let name = spec.names.first.name.as_str();
    if is_blank(name) {
        return message.help(Words::new(alloc).and("move the line into func init()"));
    }
    let written = case.shown(alloc, expr)?;
    let declared = declaration(alloc, case, spec, name, judged)?;
    let words = Words::new(alloc).and("write ").and(declared.as_str());
    if is_zero(case, spec, expr, judged) {
        return message.help(words.and(": it begins as ").and(written.as_str()));
    }
    message.help(
        words
            .and(", and set it in func init() { ")
            .and(name)
            .and(" = ")
            .and(written.as_str())
            .and(" }"),
    )
}

// The declaration of one variable with its type alone: the type that is written, else that of its value, else `T` in place of it.
fn declaration(
    alloc: Global,
    case: &Case<'_>,
    spec: &ValueSpec,
    name: &str,
    judged: &Judged,
) -> Result<String, AllocError> {
    let words = Words::new(alloc).and("var ").and(name).and(" ");
    let written = type_written(case, spec);
    if !written.is_empty() {
        return words.and(written).text();
    }
    match judged.value() {
        Some(operand) if !is_nil(operand) => {
            let told = type_or_letter(alloc, case, operand)?;
            words.and(told.as_str()).text()
        }
        _ => words.and(LETTER).text(),
    }
}

/// What stands for a type that is to be written.
const LETTER: &str = "T, with its type";

// The type of a value as it is written at the place, where it can be.
fn type_or_letter(
    alloc: Global,
    case: &Case<'_>,
    operand: &Operand<TypeTerm>,
) -> Result<String, AllocError> {
    let Some(term) = operand_type(operand) else {
        return type_of(alloc, case, operand);
    };
    let TypeText { text, is_exact } = case.setting.type_text(alloc, term)?;
    if is_exact {
        return Ok(text);
    }
    String::from_str(alloc, LETTER)
}

// Whether an initialiser gives what the variable begins with anyway: `nil`, or a literal without elements of the type that is written or of its own.
fn is_zero(case: &Case<'_>, spec: &ValueSpec, expr: &Expr, judged: &Judged) -> bool {
    match inside(expr) {
        Expr::Literal(literal) if literal.elements.is_empty() => {
            let own = Extent {
                start: type_name_start(&literal.type_name),
                end: literal.open.start as usize,
            };
            let written = type_written(case, spec);
            written.is_empty() || written == case.source(own).trim()
        }
        _ => match judged.value() {
            Some(operand) => is_nil(operand),
            None => false,
        },
    }
}
