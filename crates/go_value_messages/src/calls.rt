//! What is said of calls.

use crate::assigned::{is_nil_at, some_of};
use go_case_core::diagnostic_core::{LineKind, Message, Words, digits, kind_text, own_decl};
use go_case_core::judge_core::{inside, operand_type};
use go_case_core::{
    Case, GivenValue, Header, Misfit, Values, add_assertion, add_difference, add_missing, add_why,
    article_of, counted, header_of, is_value, mark, misfit_in, params_of, type_of, type_told,
    types_told, values_of,
};
use go_expr_core::operand_core::Operand;
use go_term_core::{Signature, TypeTerm};
use go_tree_nodes::text_core::{Rule, add};
use go_tree_nodes::token_core::Operator;
use go_tree_nodes::{CallExpr, Expr};
use std::alloc::{AllocError, Global};

/// What is said of a call that breaks one of the rules C1 to C4; none where no more is known of it.
///
/// # Errors
///
/// `AllocError` where memory is wanting.
pub fn of_call(alloc: Global, case: &Case<'_>, rule: Rule) -> Result<Option<Message>, AllocError> {
    let Some(call) = call_here(alloc, case)? else {
        return Ok(None);
    };
    match rule {
        Rule::C1 => no_function(alloc, case, call),
        Rule::C2 => miscounted(alloc, case, call),
        Rule::C3 => wrong_argument(alloc, case, call),
        _ => conversion(alloc, case, call),
    }
}

// The first byte of the parenthesis of the call of a fault, which lies there or at the name in front of it.
fn open_offset(case: &Case<'_>) -> usize {
    let tokens = case.here.tokens;
    if tokens.is(case.here.at, Operator::OpenParen) {
        return case.here.offset;
    }
    tokens.start(case.here.at.saturating_add(1))
}

// The call of a fault.
fn call_here<'s>(alloc: Global, case: &Case<'s>) -> Result<Option<&'s CallExpr>, AllocError> {
    match case.marked(alloc, open_offset(case))? {
        Some(Expr::Call(call)) => Ok(Some(&**call)),
        _ => Ok(None),
    }
}

// A call of what is no function.
fn no_function(
    alloc: Global,
    case: &Case<'_>,
    call: &CallExpr,
) -> Result<Option<Message>, AllocError> {
    let judged = case.value(alloc, &call.callee)?;
    let written = case.shown(alloc, &call.callee)?;
    let what = match judged.value() {
        Some(operand) => called_value(alloc, case, written.as_str(), operand)?,
        None => return Ok(None),
    };
    let mut message = Message::of(
        Words::new(alloc)
            .and(what.as_str())
            .and(", and cannot be called"),
    )?;
    mark(&call.callee, &mut message);
    add_hidden(alloc, case, &call.callee, &mut message)?;
    Ok(Some(message))
}

// What is called, in a sentence: a constant, or a value of a type.
fn called_value(
    alloc: Global,
    case: &Case<'_>,
    written: &str,
    operand: &Operand<TypeTerm>,
) -> Result<String, AllocError> {
    if operand.constant.is_none() {
        return is_value(alloc, case, written, operand);
    }
    let name = type_of(alloc, case, operand)?;
    Words::new(alloc)
        .and(written)
        .and(" is a constant of type ")
        .and(name.as_str())
        .text()
}

// Adds that a local hides what the package declares by its name.
fn add_hidden(
    alloc: Global,
    case: &Case<'_>,
    callee: &Expr,
    message: &mut Message,
) -> Result<(), AllocError> {
    let Expr::Name(ident) = inside(callee) else {
        return Ok(());
    };
    let name = ident.name.as_str();
    if case.setting.local(name).is_none() {
        return Ok(());
    }
    match own_decl(&case.here, name) {
        Some(decl) => message.note(
            Words::new(alloc)
                .and("the local ")
                .and(name)
                .and(" hides ")
                .and(kind_text(decl.kind))
                .and(" that the package declares"),
        ),
        None => Ok(()),
    }
}

// The arguments of a call.
fn arguments<'s>(
    alloc: Global,
    case: &Case<'_>,
    call: &'s CallExpr,
) -> Result<Values<'s>, AllocError> {
    let mut exprs = Vec::new(alloc);
    for item in &call.args {
        add(&mut exprs, &item.value)?;
    }
    values_of(alloc, case, exprs)
}

// A call with too many or too few arguments.
fn miscounted(
    alloc: Global,
    case: &Case<'_>,
    call: &CallExpr,
) -> Result<Option<Message>, AllocError> {
    let callee = case.callee(alloc, &call.callee)?;
    let values = arguments(alloc, case, call)?;
    let wanted = match callee.signature() {
        Some(signature) => signature.param_count(),
        None => 1,
    };
    let written = case.shown(alloc, &call.callee)?;
    let arguments = counted(alloc, wanted, "argument")?;
    let has = digits(alloc, values.count())?;
    let front = if callee.type_term().is_some() {
        "a conversion to "
    } else {
        ""
    };
    let pieces = Words::new(alloc)
        .and(front)
        .and(written.as_str())
        .and(" takes ")
        .and(arguments.as_str())
        .and(", but has ")
        .and(has.as_str());
    let mut message = Message::of(pieces)?;
    mark_count(call, &values, wanted, &mut message);
    if let Some(signature) = callee.signature() {
        add_have(alloc, case, &values, &mut message)?;
        add_want(alloc, case, &call.callee, signature, &mut message)?;
    }
    Ok(Some(message))
}

// Marks the arguments of a call behind as many as are wanted; where there are too few, where the call ends.
fn mark_count(call: &CallExpr, values: &Values<'_>, wanted: usize, message: &mut Message) {
    if values.count() > wanted || values.call().is_some() {
        values.mark_from(wanted, message);
    } else {
        message.mark(call.close.start as usize, call.close.end as usize);
    }
}

// Adds what is given: the types of the arguments, and how many values one call gives.
fn add_have(
    alloc: Global,
    case: &Case<'_>,
    values: &Values<'_>,
    message: &mut Message,
) -> Result<(), AllocError> {
    if let Some(expr) = values.call() {
        let written = case.shown(alloc, expr)?;
        let count = counted(alloc, values.count(), "value")?;
        message.note(
            Words::new(alloc)
                .and(written.as_str())
                .and(" gives ")
                .and(count.as_str()),
        )?;
    }
    let have = values.kinds(alloc, case)?;
    message.line(LineKind::Have, Words::new(alloc).and(have.as_str()))
}

// Adds what is wanted: the parameters as they are written where the function is declared, and its place; else their types.
fn add_want(
    alloc: Global,
    case: &Case<'_>,
    callee: &Expr,
    signature: &Signature,
    message: &mut Message,
) -> Result<(), AllocError> {
    match header_of(alloc, case, callee)? {
        Some(header) => add_header(alloc, case, &header, message),
        None => {
            let types = params_of(alloc, signature)?;
            let want = types_told(alloc, case, &types)?;
            message.line(LineKind::Want, Words::new(alloc).and(want.as_str()))
        }
    }
}

// Adds the parameters of a function as they are written, and where it is declared.
fn add_header(
    alloc: Global,
    case: &Case<'_>,
    header: &Header<'_>,
    message: &mut Message,
) -> Result<(), AllocError> {
    message.line(LineKind::Want, Words::new(alloc).and(header.params()))?;
    add_place(alloc, case, header, message)
}

// Adds where a function is declared.
fn add_place(
    alloc: Global,
    case: &Case<'_>,
    header: &Header<'_>,
    message: &mut Message,
) -> Result<(), AllocError> {
    let place = header.place(alloc, case)?;
    message.line(LineKind::Declared, Words::new(alloc).and(place.as_str()))
}

// An argument that does not fit its parameter.
fn wrong_argument(
    alloc: Global,
    case: &Case<'_>,
    call: &CallExpr,
) -> Result<Option<Message>, AllocError> {
    let callee = case.callee(alloc, &call.callee)?;
    let values = arguments(alloc, case, call)?;
    match callee.signature() {
        Some(signature) => misfit_of(alloc, case, call, signature, &values),
        None => predeclared_wants_other(alloc, case, call, &values),
    }
}

// The same of a call of a function with this signature.
fn misfit_of(
    alloc: Global,
    case: &Case<'_>,
    call: &CallExpr,
    signature: &Signature,
    values: &Values<'_>,
) -> Result<Option<Message>, AllocError> {
    let types = params_of(alloc, signature)?;
    let Some(found) = misfit_in(alloc, case, values, &types)? else {
        return Ok(None);
    };
    let header = header_of(alloc, case, &call.callee)?;
    let name = match &header {
        Some(header) => header.param_name(found.number),
        None => "",
    };
    let callee = case.shown(alloc, &call.callee)?;
    let which = which_argument(alloc, callee.as_str(), name, found.number)?;
    let mut message = misfit_message(alloc, case, which.as_str(), values, &found)?;
    match &header {
        Some(header) if has_want(&message) => add_place(alloc, case, header, &mut message)?,
        _ => add_want(alloc, case, &call.callee, signature, &mut message)?,
    }
    Ok(Some(message))
}

// Whether a message says already what is wanted.
fn has_want(message: &Message) -> bool {
    for line in &message.lines {
        if line.kind == LineKind::Want {
            return true;
        }
    }
    false
}

// What is said of a value that does not fit, after what says which it is.
fn misfit_message(
    alloc: Global,
    case: &Case<'_>,
    which: &str,
    values: &Values<'_>,
    found: &Misfit<'_>,
) -> Result<Message, AllocError> {
    let wanted = type_told(alloc, case, found.wanted)?;
    if is_nil_at(values, found.number) {
        let mut message = Message::of(
            Words::new(alloc)
                .and(which)
                .and(article_of(wanted.as_str()))
                .and(wanted.as_str())
                .and(" cannot be nil"),
        )?;
        values.mark(found.number, &mut message);
        return Ok(message);
    }
    let is = values.is_text(alloc, case, found.number)?;
    let mut message = Message::of(
        Words::new(alloc)
            .and(which)
            .and(is.as_str())
            .and(", not ")
            .and(article_of(wanted.as_str()))
            .and(wanted.as_str()),
    )?;
    add_why(alloc, case, values, found, &mut message)?;
    Ok(message)
}

// Which argument is amiss: its number, from 0, what is called, and the name of the parameter.
fn which_argument(
    alloc: Global,
    callee: &str,
    name: &str,
    number: usize,
) -> Result<String, AllocError> {
    let which = digits(alloc, number.saturating_add(1))?;
    let words = Words::new(alloc)
        .and("argument ")
        .and(which.as_str())
        .and(" of ")
        .and(callee);
    if name.is_empty() {
        return words.and(": ").text();
    }
    words.and(" (").and(name).and("): ").text()
}

// What a predeclared function wants.
fn predeclared_wants(callee: &str) -> &'static str {
    match callee {
        "len" => "a string",
        "panic" => "one value",
        _ => "a bool, an int or a string",
    }
}

// A value that a predeclared function does not take: the first whose type is over no basic type, or of `len` over no string.
fn predeclared_wants_other(
    alloc: Global,
    case: &Case<'_>,
    call: &CallExpr,
    values: &Values<'_>,
) -> Result<Option<Message>, AllocError> {
    let callee = case.shown(alloc, &call.callee)?;
    let is_len = callee.as_str() == "len";
    let mut other: usize = 0;
    let what = match values.call() {
        Some(inner) => given_by(alloc, case, inner, values)?,
        None => match values.first_other(case, is_len)? {
            Some(number) => {
                other = number;
                values.is_text(alloc, case, number)?
            }
            None => return Ok(None),
        },
    };
    let pieces = Words::new(alloc)
        .and(callee.as_str())
        .and(" takes ")
        .and(predeclared_wants(callee.as_str()))
        .and(", but ")
        .and(what.as_str());
    let mut message = Message::of(pieces)?;
    values.mark(other, &mut message);
    Ok(Some(message))
}

// What a call gives that gives no or several values.
fn given_by(
    alloc: Global,
    case: &Case<'_>,
    call: &Expr,
    values: &Values<'_>,
) -> Result<String, AllocError> {
    let written = case.shown(alloc, call)?;
    let words = Words::new(alloc).and(written.as_str()).and(" gives ");
    if values.count() == 0 {
        return words.and("no value").text();
    }
    let kinds = values.kinds(alloc, case)?;
    words.and(kinds.as_str()).text()
}

// The one argument of a conversion.
fn only_argument(call: &CallExpr) -> Option<&Expr> {
    match call.args.first() {
        Some(item) => Some(&item.value),
        None => None,
    }
}

// A conversion that is not allowed.
fn conversion(
    alloc: Global,
    case: &Case<'_>,
    call: &CallExpr,
) -> Result<Option<Message>, AllocError> {
    let callee = case.callee(alloc, &call.callee)?;
    let Some(target) = callee.type_term() else {
        return Ok(None);
    };
    let Some(argument) = only_argument(call) else {
        return Ok(None);
    };
    let judged = case.value(alloc, argument)?;
    match judged.value() {
        Some(operand) => { some_of(conversion_of(alloc, case, argument, operand, target)) }
        None => Ok(None),
    }
}

// A conversion of a value to a type.
fn conversion_of(
    alloc: Global,
    case: &Case<'_>,
    argument: &Expr,
    operand: &Operand<TypeTerm>,
    target: &TypeTerm,
) -> Result<Message, AllocError> {
    let written = case.shown(alloc, argument)?;
    let is = is_value(alloc, case, written.as_str(), operand)?;
    let wanted = type_told(alloc, case, target)?;
    let mut message = Message::of(
        Words::new(alloc)
            .and(is.as_str())
            .and(", and cannot be converted to ")
            .and(wanted.as_str()),
    )?;
    mark(argument, &mut message);
    if let Some(term) = operand_type(operand) {
        let value = GivenValue::new(term, written.as_str(), operand.addressable);
        add_missing(alloc, case, value, target, &mut message)?;
        add_assertion(alloc, case, value, target, &mut message)?;
        add_difference(alloc, case, term, target, &mut message)?;
    }
    Ok(message)
}
