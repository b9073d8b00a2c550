//! Expressions.
ghost use Rattle.std.specs.Prelude.{◌≡◌, ◌≤◌, ◌<◌, ◌+◌, ◌^◌, map, IfOk};
ghost use Rattle.go_tree_nodes.specs.token_core.declared.kind.Operator.TheVariants as operator;
ghost use Rattle.go_tree_nodes.specs.Shapes.{shape, items_of};
ghost use Rattle.go_tree_nodes.specs.Heights.{height, items_height};
ghost use Rattle.go_tree_nodes.specs.Rules as rules;
ghost use Rattle.go_parse_reader.specs.types.mirrors.EntryShapes.{list_all, then_mark};
ghost use Rattle.go_parse_reader.specs.types.mirrors.Giving.{Gives};
ghost use Rattle.go_parse_reader.specs.types.mirrors.Marks.{mark_that};
ghost use Rattle.go_parse_reader.specs.exprs.mirrors.CodeShapes as shapes;
ghost use Rattle.go_parse_reader.specs.exprs.mirrors.CodeShapes.{next_of, item_of};
ghost use Rattle.go_parse_reader.specs.exprs.mirrors.ExprReading as reading;
ghost use Rattle.go_parse_reader.specs.exprs.mirrors.ExprReading.{item_ahead, body_at, named_by, by_unary, operand_at, Operate, Apply, step, expr_at};

use crate::exprs::after::{After, next};
use crate::exprs::literal::{key, literal_name, opens_body};
use crate::exprs::operators::prefix;
use crate::types::{Ahead, Stop, add, boxed, fitted, struct_type, type_height};
use go_tree_nodes::text_core::Span;
use go_tree_nodes::token_core::{Keyword, Operator};
use go_tree_nodes::{
    BinaryExpr, CallExpr, Expr, Ident, Item, LOWEST, LiteralExpr, SelectExpr, StructLiteralExpr,
    UNARY, rank,
};
use std::alloc::Global;

/// Arguments or elements, the place of the closing mark behind them, and the height of the highest.
#[derive(Drop)]
struct ClosedItems {
    all: Vec<Item>,
    close: Span,
    high: u32,
}

/// An expression, how high it is, and what is behind it.
type ReadExpr<'a> = Result<(Expr, u32, Ahead<'a>), Stop>;

/// The longest expression in front, at most `budget` high, in a header or not; with its height.
///
/// # Errors
///
/// [`Stop::Grammar`] where none stands there, with the offset in bytes of the first token that is no part of one;
/// [`Stop::TooHigh`] where it would be too high, with the offset in bytes of what is too deep inside it; and
/// [`Stop::Memory`] where memory runs out.
pub fn expr<'a>(alloc: Global, ahead: Ahead<'a>, header: bool, budget: u32) -> ReadExpr<'a>
    requires { budget < 2 ^ 31 }
    ensures tree { Gives (λ x. (shape x.0, x.2)) result (expr_at budget header 1 ahead.entry) }
    ensures height { IfOk result (λ x. (x.1 ≡ height (shape x.0)) × (x.1 ≤ budget)) }
{
    ranked_expr(alloc, ahead, header, LOWEST, budget)
}

/// The longest expression in front whose operators have at least the rank `least`, at most `budget` high, in a header
/// or not; with its height. No operator has the rank 0.
#[cycle(expressions)]
fn ranked_expr<'a>(
    alloc: Global,
    ahead: Ahead<'a>,
    header: bool,
    least: u32,
    budget: u32,
) -> ReadExpr<'a>
    requires few { budget < 2 ^ 31 }
    requires rank { 0 < least }
    ensures tree { Gives (λ x. (shape x.0, x.2)) result (expr_at budget header least ahead.entry) }
    ensures height { IfOk result (λ x. (x.1 ≡ height (shape x.0)) × (x.1 ≤ budget)) }
{
    if budget == 0 {
        return Err(Stop::TooHigh(ahead.offset()));
    }
    let (mut left, mut high, mut rest) = operand(alloc, ahead, header, budget - 1)?;
    'turns: while let Some((after, span, behind)) = next(&rest, least) {
        if high >= budget {
            // By name: one call, where the end of the scope would take the tree apart kind by kind.
            drop(left);
            return Err(Stop::TooHigh(rest.offset()));
        }
        let (new, new_high, behind) = one_step(
            alloc,
            left,
            high,
            after,
            span,
            behind,
            header,
            budget - 1,
        )?;
        left = new;
        high = new_high;
        rest = behind;
    }
    Ok((left, high, rest))
}

/// One step behind an operand: an operator and its other operand, a selector, or a call.
#[cycle(expressions)]
fn one_step<'a>(
    alloc: Global,
    left: Expr,
    high: u32,
    after: After,
    span: Span,
    ahead: Ahead<'a>,
    header: bool,
    inner: u32,
) -> ReadExpr<'a>
    requires room { inner < 2 ^ 31 }
    requires high { high ≡ height (shape left) }
    requires low { high ≤ inner }
    ensures tree { Gives (λ x. (shape x.0, x.2)) result (step (expr_at inner) header (shape left) (next_of after span ahead.entry)) }
    ensures height { IfOk result (λ x. (x.1 ≡ height (shape x.0)) × (x.1 ≤ inner + 1) × (high < x.1)) }
{
    match after {
        After::Operate(op) => binary(alloc, left, high, op, span, ahead, header, inner),
        After::Pick => selected(alloc, left, high, span, ahead),
        After::Apply => call(alloc, left, high, span, ahead, inner),
    }
}

/// A binary operator with its place `span` between `left` and the operand in front.
#[cycle(expressions)]
fn binary<'a>(
    alloc: Global,
    left: Expr,
    high: u32,
    operator: Operator,
    span: Span,
    ahead: Ahead<'a>,
    header: bool,
    inner: u32,
) -> ReadExpr<'a>
    requires room { inner < 2 ^ 31 }
    requires high { high ≡ height (shape left) }
    requires low { high ≤ inner }
    ensures tree { Gives (λ x. (shape x.0, x.2)) result (step (expr_at inner) header (shape left) (Operate «operator» span ahead.entry)) }
    ensures height { IfOk result (λ x. (x.1 ≡ height (shape x.0)) × (x.1 ≤ inner + 1) × (high < x.1)) }
{
    match ranked_expr(alloc, ahead, header, rank(operator) + 1, inner) {
        Ok((right, right_high, rest)) => {
            let whole = boxed(
                alloc,
                BinaryExpr {
                    left,
                    operator,
                    span,
                    right,
                },
            )?;
            Ok((Expr::Binary(whole), high.max(right_high) + 1, rest))
        }
        Err(stop) => {
            drop(left);
            Err(stop)
        }
    }
}

/// The name in front as a selector behind `operand` and its dot.
fn selected<'a>(
    alloc: Global,
    operand: Expr,
    high: u32,
    dot: Span,
    ahead: Ahead<'a>,
) -> ReadExpr<'a>
    requires room { high < 2 ^ 31 }
    requires high { high ≡ height (shape operand) }
    ensures tree { Gives (λ x. (shape x.0, x.2)) result (shapes.selected_at (shape operand) dot ahead.entry) }
    ensures height { IfOk result (λ x. (x.1 ≡ height (shape x.0)) × (x.1 ≡ high + 1)) }
{
    match ahead.need_name(alloc) {
        Ok((name, rest)) => {
            let whole = boxed(alloc, SelectExpr { operand, dot, name })?;
            Ok((Expr::Select(whole), high + 1, rest))
        }
        Err(stop) => {
            drop(operand);
            Err(stop)
        }
    }
}

/// The arguments in front as a call of `callee`, behind its opening parenthesis.
#[cycle(expressions)]
fn call<'a>(
    alloc: Global,
    callee: Expr,
    high: u32,
    open: Span,
    ahead: Ahead<'a>,
    inner: u32,
) -> ReadExpr<'a>
    requires room { inner < 2 ^ 31 }
    requires high { high ≡ height (shape callee) }
    requires low { high ≤ inner }
    ensures tree { Gives (λ x. (shape x.0, x.2)) result (shapes.applied_at (expr_at inner) (shape callee) «open» ahead.entry) }
    ensures height { IfOk result (λ x. (x.1 ≡ height (shape x.0)) × (x.1 ≤ inner + 1) × (high < x.1)) }
{
    match closed_items(alloc, ahead, false, Operator::CloseParen, inner) {
        Ok((items, rest)) => {
            let high = high.max(items.high) + 1;
            let whole = boxed(
                alloc,
                CallExpr {
                    callee,
                    open,
                    args: items.all,
                    close: items.close,
                },
            )?;
            Ok((Expr::Call(whole), high, rest))
        }
        Err(stop) => {
            drop(callee);
            Err(stop)
        }
    }
}

/// The longest expression in front whose operators have at least the rank `least`, in a box, with its height.
#[cycle(expressions)]
fn boxed_expr<'a>(
    alloc: Global,
    ahead: Ahead<'a>,
    header: bool,
    least: u32,
    budget: u32,
) -> Result<(Box<Expr>, u32, Ahead<'a>), Stop>
    requires few { budget < 2 ^ 31 }
    requires rank { 0 < least }
    ensures tree { Gives (λ x. (shape x.0.value, x.2)) result (expr_at budget header least ahead.entry) }
    ensures height { IfOk result (λ x. (x.1 ≡ height (shape x.0.value)) × (x.1 ≤ budget)) }
{
    let (expr, high, rest) = ranked_expr(alloc, ahead, header, least, budget)?;
    Ok((boxed(alloc, expr)?, high, rest))
}

/// An operand, whose parts are at most `inner` high.
#[cycle(expressions)]
fn operand<'a>(alloc: Global, ahead: Ahead<'a>, header: bool, inner: u32) -> ReadExpr<'a>
    requires { inner < 2 ^ 31 }
    ensures tree { Gives (λ x. (shape x.0, x.2)) result (operand_at (expr_at inner) inner header ahead.entry) }
    ensures height { IfOk result (λ x. (x.1 ≡ height (shape x.0)) × (x.1 ≤ inner + 1)) }
{
    if let Some((value, span, rest)) = ahead.integer() {
        return Ok((Expr::Integer(value, span), 1, rest));
    }
    if let Some((text, rest)) = ahead.text(alloc)? {
        return Ok((Expr::Text(text), 1, rest));
    }
    if let Some((first, rest)) = ahead.name(alloc)? {
        return named(alloc, rest, first, header, inner);
    }
    if let Some((keyword, rest)) = ahead.word(Keyword::Struct) {
        return struct_literal(alloc, rest, keyword, inner);
    }
    if let Some((open, rest)) = ahead.mark(Operator::OpenParen) {
        return in_parens(alloc, rest, open, inner);
    }
    unary(alloc, ahead, header, inner)
}

/// An expression and the closing parenthesis behind it.
#[cycle(expressions)]
fn in_parens<'a>(alloc: Global, ahead: Ahead<'a>, opening: Span, inner: u32) -> ReadExpr<'a>
    requires { inner < 2 ^ 31 }
    ensures tree { Gives (λ x. (shape x.0, x.2)) result (shapes.in_parens (expr_at inner) opening ahead.entry) }
    ensures height { IfOk result (λ x. (x.1 ≡ height (shape x.0)) × (x.1 ≤ inner + 1)) }
{
    let (inside, high, rest) = boxed_expr(alloc, ahead, false, LOWEST, inner)?;
    let (close, rest) = rest.need_mark(Operator::CloseParen)?;
    Ok((Expr::Paren(opening, inside, close), high + 1, rest))
}

/// A unary operator and its operand.
#[cycle(expressions)]
fn unary<'a>(alloc: Global, ahead: Ahead<'a>, header: bool, inner: u32) -> ReadExpr<'a>
    requires { inner < 2 ^ 31 }
    ensures tree { Gives (λ x. (shape x.0, x.2)) result (by_unary (expr_at inner) header (mark_that rules.is_unary ahead.entry)) }
    ensures height { IfOk result (λ x. (x.1 ≡ height (shape x.0)) × (x.1 ≤ inner + 1)) }
{
    let Some((op, span, rest)) = prefix(&ahead) else {
        return Err(Stop::Grammar(ahead.offset()));
    };
    let (operand, high, rest) = boxed_expr(alloc, rest, header, UNARY, inner)?;
    Ok((Expr::Unary(op, span, operand), high + 1, rest))
}

/// What begins with the name `first`: the name, or a literal of that type.
#[cycle(expressions)]
fn named<'a>(
    alloc: Global,
    ahead: Ahead<'a>,
    first: Ident,
    header: bool,
    inner: u32,
) -> ReadExpr<'a>
    requires { inner < 2 ^ 31 }
    ensures tree { Gives (λ x. (shape x.0, x.2)) result (named_by (expr_at inner) inner first ahead.entry (body_at header first ahead.entry)) }
    ensures height { IfOk result (λ x. (x.1 ≡ height (shape x.0)) × (x.1 ≤ inner + 1)) }
{
    if !opens_body(&ahead, header) {
        return Ok((Expr::Name(first), 1, ahead));
    }
    if inner == 0 {
        return Err(Stop::TooHigh(ahead.offset()));
    }
    let (type_name, rest) = literal_name(alloc, first, ahead)?;
    let (open, body, rest) = elements(alloc, rest, inner)?;
    let high = body.high.max(1) + 1;
    let literal = boxed(
        alloc,
        LiteralExpr {
            type_name,
            open,
            elements: body.all,
            close: body.close,
        },
    )?;
    Ok((Expr::Literal(literal), high, rest))
}

/// A literal of a struct type, behind `struct`.
#[cycle(expressions)]
fn struct_literal<'a>(alloc: Global, ahead: Ahead<'a>, keyword: Span, inner: u32) -> ReadExpr<'a>
    requires { inner < 2 ^ 31 }
    ensures tree { Gives (λ x. (shape x.0, x.2)) result (reading.struct_literal (expr_at inner) inner keyword ahead.entry) }
    ensures height { IfOk result (λ x. (x.1 ≡ height (shape x.0)) × (x.1 ≤ inner + 1)) }
{
    if inner == 0 {
        return Err(Stop::TooHigh(ahead.offset()));
    }
    let (type_expr, rest) = struct_type(alloc, ahead, keyword, inner - 1)?;
    match elements(alloc, rest, inner) {
        Ok((open, body, rest)) => {
            let high = body.high.max(type_height(&type_expr)) + 1;
            let literal = boxed(
                alloc,
                StructLiteralExpr {
                    type_expr,
                    open,
                    elements: body.all,
                    close: body.close,
                },
            )?;
            Ok((Expr::StructLiteral(literal), high, rest))
        }
        Err(stop) => {
            drop(type_expr);
            Err(stop)
        }
    }
}

/// The elements of a literal behind the place of their opening brace, each at most `inner` high.
#[cycle(expressions)]
fn elements<'a>(
    alloc: Global,
    ahead: Ahead<'a>,
    inner: u32,
) -> Result<(Span, ClosedItems, Ahead<'a>), Stop>
    requires { inner < 2 ^ 31 }
    ensures tree { Gives (λ x. ((x.0, items_of x.1.all.items, x.1.close), x.2)) result (shapes.elements_at (expr_at inner) ahead.entry) }
    ensures height { IfOk result (λ x. (x.1.high ≡ items_height (items_of x.1.all.items)) × (x.1.high ≤ inner)) }
{
    let (open, rest) = ahead.need_mark(Operator::OpenBrace)?;
    let (items, rest) = closed_items(alloc, rest, true, Operator::CloseBrace, inner)?;
    Ok((open, items, rest))
}

/// The arguments or elements in front and the closing mark behind them, each at most `inner` high.
#[cycle(expressions)]
fn closed_items<'a>(
    alloc: Global,
    ahead: Ahead<'a>,
    keyed: bool,
    close: Operator,
    inner: u32,
) -> Result<(ClosedItems, Ahead<'a>), Stop>
    requires { inner < 2 ^ 31 }
    ensures tree { Gives (λ x. ((items_of x.0.all.items, x.0.close), x.1)) result (shapes.closed_at (expr_at inner) keyed close ahead.entry) }
    ensures height { IfOk result (λ x. (x.0.high ≡ items_height (items_of x.0.all.items)) × (x.0.high ≤ inner)) }
{
    let (all, high, rest) = items(alloc, ahead, keyed, close, inner)?;
    let (close, rest) = rest.need_mark(close)?;
    Ok((ClosedItems { all, close, high }, rest))
}

/// An argument, or an element with its key if it has one; with its height, and the comma behind it.
#[cycle(expressions)]
fn item<'a>(
    alloc: Global,
    ahead: Ahead<'a>,
    keyed: bool,
    close: Operator,
    inner: u32,
) -> Result<(Item, u32, Ahead<'a>), Stop>
    requires { inner < 2 ^ 31 }
    ensures tree { Gives (λ x. (item_of x.0, x.2)) result (then_mark operator.Comma close (item_ahead (expr_at inner) keyed ahead.entry)) }
    ensures height { IfOk result (λ x. (x.1 ≡ height (shape x.0.value)) × (x.1 ≤ inner)) }
{
    let (key, rest) = key(alloc, ahead, keyed)?;
    let (value, high, rest) = ranked_expr(alloc, rest, false, LOWEST, inner)?;
    match rest.mark_or_end(Operator::Comma, close) {
        Ok((comma, rest)) => Ok((Item { key, value, comma }, high, rest)),
        Err(stop) => {
            drop(value);
            Err(stop)
        }
    }
}

/// The arguments or elements in front up to a closing mark, each at most `inner` high; with the height of the highest.
#[cycle(expressions)]
fn items<'a>(
    alloc: Global,
    ahead: Ahead<'a>,
    keyed: bool,
    close: Operator,
    inner: u32,
) -> Result<(Vec<Item>, u32, Ahead<'a>), Stop>
    requires { inner < 2 ^ 31 }
    ensures tree { Gives (λ x. (map item_of x.0.items, x.2)) result (list_all (item_ahead (expr_at inner) keyed) operator.Comma close ahead.entry) }
    ensures height { IfOk result (λ x. (x.1 ≡ items_height (items_of x.0.items)) × (x.1 ≤ inner)) }
{
    let mut all = Vec::new(alloc);
    let mut high: u32 = 0;
    let mut rest = ahead;
    'turns: while rest.mark(close).is_none() {
        let (item, item_high, behind) = item(alloc, rest, keyed, close, inner)?;
        add(&mut all, item)?;
        high = high.max(item_high);
        rest = behind;
    }
    Ok((fitted(all), high, rest))
}
