//! What is said of operands that do not fit.

use go_case_core::diagnostic_core::{Message, Words};
use go_case_core::judge_core::{Extent, Judged, Piece, operand_type};
use go_case_core::{
    Case, GivenValue, add_conversion, add_missing, article_of, is_nil, is_value, mark,
    mark_between, type_of, values_told, why_fixed,
};
use go_expr_core::start;
use go_operand_core::Operand;
use go_term_core::{Basic, TypeTerm};
use go_tree_nodes::text_core::{Span, add};
use go_tree_nodes::token_core::Operator;
use go_tree_nodes::{BinaryExpr, Expr, Simple, Update};
use std::alloc::{AllocError, Global};

/// A message, as one that there is.
///
/// # Errors
///
/// `AllocError` where memory was wanting for it.
pub(crate) fn some_of(message: Result<Message, AllocError>) -> Result<Option<Message>, AllocError> {
    match message {
        Ok(message) => Ok(Some(message)),
        Err(error) => Err(error),
    }
}

/// What is said of an operand, an operator or a condition that breaks the rule Y3; none where no more is known of it.
///
/// # Errors
///
/// `AllocError` where memory is wanting.
pub fn of_operands(alloc: Global, case: &Case<'_>) -> Result<Option<Message>, AllocError> {
    if let Some(message) = of_statement(alloc, case)? {
        return Ok(Some(message));
    }
    let Some(widest) = case.beginning(alloc)? else {
        return Ok(None);
    };
    let spine = spine_of(alloc, widest)?;
    if let Some(message) = of_spine(alloc, case, &spine)? {
        return Ok(Some(message));
    }
    of_condition(alloc, case, widest)
}

// The statement that begins at the place of a fault: an update or a step.
fn of_statement(alloc: Global, case: &Case<'_>) -> Result<Option<Message>, AllocError> {
    match case.setting.piece() {
        Some(piece) if piece.start() == case.here.offset => of_piece(alloc, case, piece),
        _ => Ok(None),
    }
}

// A piece that is an update or a step.
fn of_piece(
    alloc: Global,
    case: &Case<'_>,
    piece: Piece<'_>,
) -> Result<Option<Message>, AllocError> {
    match piece {
        Piece::Simple(Simple::Step(target, operator, _)) => {
            stepped(alloc, case, target, *operator)
        }
        Piece::Simple(Simple::Update(update)) => updated(alloc, case, update),
        _ => Ok(None),
    }
}

/// The parts of an expression that begin where it begins, the widest first: left operands, what is called, what stands left of dots.
///
/// # Errors
///
/// `AllocError` where memory is wanting.
pub(crate) fn spine_of(alloc: Global, widest: &Expr) -> Result<Vec<&Expr>, AllocError> {
    let mut spine = Vec::new(alloc);
    add_spine(widest, &mut spine)?;
    Ok(spine)
}

// Adds the parts of an expression that begin where it begins, itself included.
fn add_spine<'t>(expr: &'t Expr, spine: &mut Vec<&'t Expr>) -> Result<(), AllocError> {
    add(spine, expr)?;
    match expr {
        Expr::Binary(binary) => add_spine(&binary.left, spine),
        Expr::Select(select) => add_spine(&select.operand, spine),
        Expr::Call(call) => add_spine(&call.callee, spine),
        Expr::Integer(_, _) => Ok(()),
        Expr::Text(_) => Ok(()),
        Expr::Name(_) => Ok(()),
        Expr::Paren(_, _, _) => Ok(()),
        Expr::Unary(_, _, _) => Ok(()),
        Expr::Literal(_) => Ok(()),
        Expr::StructLiteral(_) => Ok(()),
    }
}

// The narrowest of some expressions, the widest first, that breaks the rule itself: its operands are values, and it is none; or it is no single value.
fn of_spine(
    alloc: Global,
    case: &Case<'_>,
    spine: &[&Expr],
) -> Result<Option<Message>, AllocError> {
    for back in 0..spine.len() {
        let number = spine.len().saturating_sub(back).saturating_sub(1);
        if let Some(expr) = spine.get(number) {
            if let Some(mut message) = of_part(alloc, case, *expr)? {
                mark(*expr, &mut message);
                return Ok(Some(message));
            }
        }
    }
    Ok(None)
}

// An expression that breaks the rule itself, where it does.
fn of_part(alloc: Global, case: &Case<'_>, expr: &Expr) -> Result<Option<Message>, AllocError> {
    match expr {
        Expr::Binary(binary) => of_binary(alloc, case, expr, binary),
        Expr::Unary(operator, _, inner) => of_unary(alloc, case, expr, *operator, inner),
        Expr::Call(_) => of_call(alloc, case, expr),
        Expr::Paren(_, _, _) => of_call(alloc, case, expr),
        Expr::Integer(_, _) => Ok(None),
        Expr::Text(_) => Ok(None),
        Expr::Name(_) => Ok(None),
        Expr::Select(_) => Ok(None),
        Expr::Literal(_) => Ok(None),
        Expr::StructLiteral(_) => Ok(None),
    }
}

// A call that gives no or several values where one is wanted.
fn of_call(alloc: Global, case: &Case<'_>, expr: &Expr) -> Result<Option<Message>, AllocError> {
    let judged = case.value(alloc, expr)?;
    let Some(count) = judged.count() else {
        return Ok(None);
    };
    let written = case.shown(alloc, expr)?;
    let values = values_told(alloc, count)?;
    let words = Words::new(alloc)
        .and(written.as_str())
        .and(" gives ")
        .and(values.as_str());
    some_of(Message::of(words.and(" where one is wanted")))
}

// What a binary expression and its operands denote.
struct Sides {
    left: Judged,
    right: Judged,
    whole: Judged,
}

impl Drop for Sides {
    fn drop(self) {
        let Sides {
            left: _,
            right: _,
            whole: _,
        } = self;
    }
}

// What a binary expression and its operands denote.
fn sides_of(
    alloc: Global,
    case: &Case<'_>,
    expr: &Expr,
    binary: &BinaryExpr,
) -> Result<Sides, AllocError> {
    let left = case.value(alloc, &binary.left)?;
    let right = case.value(alloc, &binary.right)?;
    let whole = case.value(alloc, expr)?;
    Ok(Sides { left, right, whole })
}

// A binary expression that breaks the rule: both operands are values, and it is none.
fn of_binary(
    alloc: Global,
    case: &Case<'_>,
    expr: &Expr,
    binary: &BinaryExpr,
) -> Result<Option<Message>, AllocError> {
    let sides = sides_of(alloc, case, expr, binary)?;
    if !sides.whole.is_refused() {
        return Ok(None);
    }
    match (sides.left.value(), sides.right.value()) {
        (Some(left), Some(right)) => {
            some_of(two_operands(alloc, case, expr, binary, left, right))
        }
        _ => Ok(None),
    }
}

// Two values between which an operator may not stand.
fn two_operands(
    alloc: Global,
    case: &Case<'_>,
    expr: &Expr,
    binary: &BinaryExpr,
    left: &Operand<TypeTerm>,
    right: &Operand<TypeTerm>,
) -> Result<Message, AllocError> {
    let written = case.shown(alloc, expr)?;
    let whole = Words::new(alloc).and(written.as_str()).and(": ");
    if is_nil(right) {
        return beside_nil(alloc, case, whole, &binary.left, left);
    }
    if is_nil(left) {
        return beside_nil(alloc, case, whole, &binary.right, right);
    }
    let one = type_of(alloc, case, left)?;
    let other = type_of(alloc, case, right)?;
    if one.as_str() == other.as_str() {
        let sign = sign_of(case, binary.span);
        return unfit(alloc, whole, sign, one.as_str());
    }
    let mut message = differing(alloc, case, whole, binary, one.as_str(), other.as_str())?;
    add_fitting(alloc, case, binary, left, right, &mut message)?;
    Ok(message)
}

// Two values of different types, each with what its type is told as.
fn differing(
    alloc: Global,
    case: &Case<'_>,
    whole: Words,
    binary: &BinaryExpr,
    one: &str,
    other: &str,
) -> Result<Message, AllocError> {
    let left = case.shown(alloc, &binary.left)?;
    let right = case.shown(alloc, &binary.right)?;
    Message::of(
        whole
            .and(left.as_str())
            .and(" is ")
            .and(article_of(one))
            .and(one)
            .and(", and ")
            .and(right.as_str())
            .and(" ")
            .and(article_of(other))
            .and(other),
    )
}

// Adds why two values are not compared that are of different types, where one is of an interface type, and how one is converted to the type of the other.
fn add_fitting(
    alloc: Global,
    case: &Case<'_>,
    binary: &BinaryExpr,
    left: &Operand<TypeTerm>,
    right: &Operand<TypeTerm>,
    message: &mut Message,
) -> Result<(), AllocError> {
    let one = case.shown(alloc, &binary.left)?;
    let other = case.shown(alloc, &binary.right)?;
    if is_equation(binary.operator) {
        add_lack(alloc, case, one.as_str(), left, right, message)?;
        if message.lines.is_empty() {
            add_lack(alloc, case, other.as_str(), right, left, message)?;
        }
    }
    add_converted(alloc, case, other.as_str(), right, left, message)
}

// Adds how a value is converted to the type of another, where both have the same one of bool, int and string under them.
fn add_converted(
    alloc: Global,
    case: &Case<'_>,
    written: &str,
    operand: &Operand<TypeTerm>,
    other: &Operand<TypeTerm>,
    message: &mut Message,
) -> Result<(), AllocError> {
    match (operand_type(operand), operand_type(other)) {
        (Some(term), Some(wanted)) => {
            let value = GivenValue::new(term, written, operand.addressable);
            add_conversion(alloc, case, value, wanted, message)
        }
        _ => Ok(()),
    }
}

// Whether an operator asks whether two values are equal.
fn is_equation(operator: Operator) -> bool {
    matches!(operator, Operator::Equal | Operator::NotEqual)
}

// Adds which method a value lacks that is compared with one of an interface type; nothing where the other has no interface type.
fn add_lack(
    alloc: Global,
    case: &Case<'_>,
    written: &str,
    operand: &Operand<TypeTerm>,
    other: &Operand<TypeTerm>,
    message: &mut Message,
) -> Result<(), AllocError> {
    match (operand_type(operand), operand_type(other)) {
        (Some(term), Some(wanted)) => {
            let value = GivenValue::new(term, written, operand.addressable);
            add_missing(alloc, case, value, wanted, message)
        }
        _ => Ok(()),
    }
}

// An operator as it is written.
fn sign_of<'s>(case: &Case<'s>, at: Span) -> &'s str {
    case.source(Extent {
        start: at.start as usize,
        end: at.end as usize,
    })
}

// An operator that a type does not take.
fn unfit(alloc: Global, whole: Words, sign: &str, name: &str) -> Result<Message, AllocError> {
    Message::of(
        whole
            .and(sign)
            .and(" cannot be applied to ")
            .and(article_of(name))
            .and(name),
    )
}

// A value beside `nil` whose type has no nil value.
fn beside_nil(
    alloc: Global,
    case: &Case<'_>,
    whole: Words,
    expr: &Expr,
    operand: &Operand<TypeTerm>,
) -> Result<Message, AllocError> {
    if is_nil(operand) {
        return Message::of(whole.and("nil has no type, and cannot be compared with nil"));
    }
    let written = case.shown(alloc, expr)?;
    let is = is_value(alloc, case, written.as_str(), operand)?;
    Message::of(
        whole
            .and(is.as_str())
            .and(", which cannot be compared with nil"),
    )
}

// What a unary operator wants.
fn wanted_by(operator: Operator) -> &'static str {
    match operator {
        Operator::Not => "a bool",
        Operator::Star => "a pointer",
        _ => "an int",
    }
}

// A unary expression that breaks the rule: its operand is a value, and it is none.
fn of_unary(
    alloc: Global,
    case: &Case<'_>,
    expr: &Expr,
    operator: Operator,
    inner: &Expr,
) -> Result<Option<Message>, AllocError> {
    let whole = case.value(alloc, expr)?;
    let judged = case.value(alloc, inner)?;
    let Some(operand) = judged.value() else {
        return Ok(None);
    };
    if !whole.is_refused() {
        return Ok(None);
    }
    let written = case.shown(alloc, expr)?;
    let name = case.shown(alloc, inner)?;
    let words = Words::new(alloc).and(written.as_str()).and(": ");
    if operator == Operator::And {
        let words = words.and(name.as_str()).and(" has no address");
        return some_of(Message::of(words));
    }
    let is = is_value(alloc, case, name.as_str(), operand)?;
    let words = words
        .and(case.here.word())
        .and(" takes ")
        .and(wanted_by(operator))
        .and(", but ")
        .and(is.as_str());
    some_of(Message::of(words))
}

// A condition that is no bool.
fn of_condition(
    alloc: Global,
    case: &Case<'_>,
    expr: &Expr,
) -> Result<Option<Message>, AllocError> {
    let Some(Piece::Condition(condition)) = case.setting.piece() else {
        return Ok(None);
    };
    if start(condition) != case.here.offset {
        return Ok(None);
    }
    let judged = case.value(alloc, expr)?;
    let Some(operand) = judged.value() else {
        return Ok(None);
    };
    if case.setting.basic_under(operand)? == Some(Basic::Bool) {
        return Ok(None);
    }
    let written = case.shown(alloc, expr)?;
    let is = is_value(alloc, case, written.as_str(), operand)?;
    let words = Words::new(alloc).and("the condition ").and(is.as_str());
    let mut message = Message::of(words.and(", not a bool"))?;
    mark(expr, &mut message);
    let is_whole = !written.ends_with('.');
    if is_whole && case.setting.basic_under(operand)? == Some(Basic::Int) {
        let words = Words::new(alloc).and("write ").and(written.as_str());
        message.help(words.and(" != 0, if that is meant"))?;
    }
    Ok(Some(message))
}

// A statement with `++` or `--`.
fn stepped(
    alloc: Global,
    case: &Case<'_>,
    target: &Expr,
    operator: Operator,
) -> Result<Option<Message>, AllocError> {
    let judged = case.value(alloc, target)?;
    let Some(operand) = judged.value() else {
        return Ok(None);
    };
    let sign = if operator == Operator::Increment {
        "++"
    } else {
        "--"
    };
    let written = case.shown(alloc, target)?;
    let written = written.as_str();
    let words = Words::new(alloc).and(written).and(sign).and(": ");
    if case.setting.basic_under(operand)? == Some(Basic::Int) {
        let words = words.and(written).and(why_fixed(operand));
        return some_of(Message::of(words));
    }
    let is = is_value(alloc, case, written, operand)?;
    let words = words.and(sign).and(" takes an int, but ").and(is.as_str());
    some_of(Message::of(words))
}

// A statement with an operator with `=`: two values that do not fit it, or a target that cannot be assigned to.
fn updated(alloc: Global, case: &Case<'_>, update: &Update) -> Result<Option<Message>, AllocError> {
    let target = case.value(alloc, &update.target)?;
    let value = case.value(alloc, &update.value)?;
    match (target.value(), value.value()) {
        (Some(left), Some(right)) => {
            let mut message = update_told(alloc, case, update, left, right)?;
            mark_between(&update.target, &update.value, &mut message);
            Ok(Some(message))
        }
        _ => Ok(None),
    }
}

// The same of two values.
fn update_told(
    alloc: Global,
    case: &Case<'_>,
    update: &Update,
    left: &Operand<TypeTerm>,
    right: &Operand<TypeTerm>,
) -> Result<Message, AllocError> {
    let target = case.shown(alloc, &update.target)?;
    let value = case.shown(alloc, &update.value)?;
    let sign = sign_of(case, update.span);
    let whole = Words::new(alloc)
        .and(target.as_str())
        .and(" ")
        .and(sign)
        .and(" ")
        .and(value.as_str())
        .and(": ");
    let one = type_of(alloc, case, left)?;
    let other = type_of(alloc, case, right)?;
    if one.as_str() != other.as_str() {
        let mut message = Message::of(
            whole
                .and(target.as_str())
                .and(" is ")
                .and(article_of(one.as_str()))
                .and(one.as_str())
                .and(", and ")
                .and(value.as_str())
                .and(" ")
                .and(article_of(other.as_str()))
                .and(other.as_str()),
        )?;
        add_converted(alloc, case, value.as_str(), right, left, &mut message)?;
        return Ok(message);
    }
    if !left.addressable {
        return Message::of(whole.and(target.as_str()).and(why_fixed(left)));
    }
    unfit(alloc, whole, sign, one.as_str())
}
