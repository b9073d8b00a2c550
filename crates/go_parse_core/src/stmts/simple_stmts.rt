//! Simple statements.
//!
//! What was read is dropped by name where reading stops behind it. That is one call; a `?` writes out the tree's drop.
ghost use Rattle.std.specs.Prelude.{◌≡◌, ◌<◌, ◌^◌, true, false, IfOk};
ghost use Rattle.std.specs.Option.{option_map};
ghost use Rattle.go_tree_nodes.specs.Heights.{exprs_height};
ghost use Rattle.go_tree_nodes.specs.Rules as rules;
ghost use Rattle.go_tree_nodes.specs.Shapes.{shape, shape_exprs, shape_simple};
ghost use Rattle.go_tree_nodes.specs.TypeShapes.{shape_idents};
ghost use Rattle.go_parse_reader.specs.types.mirrors.Giving.{Gives, NeverMemory};
ghost use Rattle.go_parse_reader.specs.types.mirrors.Marks as marks;
ghost use Rattle.go_parse_reader.specs.types.mirrors.Marks.{mark_that};
ghost use Rattle.go_parse_core.specs.stmts.mirrors.StmtReading as reading;
ghost use Rattle.go_tree_nodes.specs.Naming.{name_of};
ghost use Rattle.go_parse_core.specs.stmts.mirrors.StmtReading.{names_of, step_by, simple_by, simple_at, simple_from};

use go_parse_reader::exprs::{expr, exprs};
use go_parse_reader::types::{Ahead, Stop, add, boxed, fitted};
use go_tree_nodes::text_core::Span;
use go_tree_nodes::token_core::Operator;
use go_tree_nodes::{
    Assignment, Definition, Expr, Exprs, Ident, Idents, NextExpr, NextIdent, Simple, Update,
};
use std::alloc::{AllocError, Global};

/// The name that an expression is.
fn name(expr: Expr) -> Option<Ident>
    ensures { result ≡ name_of (shape expr) }
{
    expr.into_name()
}

/// The names that expressions are, or none where one of them is no name.
fn names(alloc: Global, exprs: Exprs) -> Result<Option<Idents>, AllocError>
    ensures { IfOk result (λ x. option_map shape_idents x ≡ names_of (shape_exprs exprs)) }
{
    let Exprs { first, more } = exprs;
    let Some(first) = name(first) else {
        return Ok(None);
    };
    let mut names = Vec::new(alloc);
    'turns: for next in more {
        let NextExpr { comma, expr } = next;
        let Some(ident) = name(expr) else {
            return Ok(None);
        };
        add(&mut names, NextIdent { comma, ident })?;
    }
    let more = fitted(names);
    Ok(Some(Idents { first, more }))
}

/// The one expression that stands before `ahead`.
///
/// # Errors
///
/// [`Stop::Grammar`] where there are several, with the offset in bytes of what stands behind them.
pub fn single(exprs: Exprs, ahead: &Ahead<'_>) -> Result<Expr, Stop>
    ensures value { Gives shape result (marks.need (reading.single (shape_exprs exprs))) }
    ensures surely { NeverMemory result }
{
    if !exprs.more.is_empty() {
        drop(exprs);
        return Err(Stop::Grammar(ahead.offset()));
    }
    Ok(exprs.first)
}

/// Whether an operator is `++` or `--`.
fn is_step(op: Operator) -> bool
    ensures { result ≡ rules.is_step op }
{
    matches!(op, Operator::Increment | Operator::Decrement)
}

/// The `++` or `--` in front, and what is behind it.
fn step<'a>(ahead: &Ahead<'a>) -> Option<(Operator, Span, Ahead<'a>)>
    ensures { result ≡ mark_that rules.is_step ahead.now }
{
    let (op, span, rest) = ahead.any_mark()?;
    if is_step(op) {
        Some((op, span, rest))
    } else {
        None
    }
}

/// Whether an operator is that of an assignment operation, as `+=`.
fn is_update(op: Operator) -> bool
    ensures { result ≡ rules.is_update op }
{
    matches!(
        op,
        Operator::StarAssign
            | Operator::SlashAssign
            | Operator::PercentAssign
            | Operator::ShiftLeftAssign
            | Operator::ShiftRightAssign
            | Operator::AndAssign
            | Operator::AndNotAssign
            | Operator::PlusAssign
            | Operator::MinusAssign
            | Operator::OrAssign
            | Operator::CaretAssign
    )
}

/// The operator of an assignment operation in front, and what is behind it.
fn update<'a>(ahead: &Ahead<'a>) -> Option<(Operator, Span, Ahead<'a>)>
    ensures { result ≡ mark_that rules.is_update ahead.now }
{
    let (op, span, rest) = ahead.any_mark()?;
    if is_update(op) {
        Some((op, span, rest))
    } else {
        None
    }
}

/// The statement of one expression that begins with `front`, whose other parts are at most `inner` high.
fn one_expr<'a>(
    alloc: Global,
    front: Exprs,
    ahead: Ahead<'a>,
    header: bool,
    inner: u32,
) -> Result<(Simple, Ahead<'a>), Stop>
    requires { inner < 2 ^ 31 }
    ensures { Gives (λ x. (shape_simple x.0, x.1)) result (step_by inner header (shape_exprs front) ahead.entry (mark_that rules.is_step ahead.entry)) }
{
    let target = single(front, &ahead)?;
    if let Some((op, span, rest)) = step(&ahead) {
        return Ok((Simple::Step(boxed(alloc, target)?, op, span), rest));
    }
    let Some((operator, span, rest)) = update(&ahead) else {
        return Ok((Simple::Expr(target), ahead));
    };
    match expr(alloc, rest, header, inner) {
        Ok((value, _, rest)) => {
            let update = Update {
                target,
                operator,
                span,
                value,
            };
            Ok((Simple::Update(boxed(alloc, update)?), rest))
        }
        Err(stop) => {
            drop(target);
            Err(stop)
        }
    }
}

/// The simple statement that begins with `front`, whose other parts are at most `inner` high.
fn simple_behind<'a>(
    alloc: Global,
    front: Exprs,
    ahead: Ahead<'a>,
    header: bool,
    inner: u32,
) -> Result<(Simple, Ahead<'a>), Stop>
    requires { inner < 2 ^ 31 }
    ensures { Gives (λ x. (shape_simple x.0, x.1)) result (simple_by inner header (shape_exprs front) ahead.entry) }
{
    if let Some((define, rest)) = ahead.mark(Operator::Define) {
        let Some(names) = names(alloc, front)? else {
            return Err(Stop::Grammar(ahead.offset()));
        };
        let (values, _, rest) = exprs(alloc, rest, header, inner)?;
        let definition = Definition {
            names,
            define,
            values,
        };
        return Ok((Simple::Define(boxed(alloc, definition)?), rest));
    }
    let Some((assign, rest)) = ahead.mark(Operator::Assign) else {
        return one_expr(alloc, front, ahead, header, inner);
    };
    match exprs(alloc, rest, header, inner) {
        Ok((values, _, rest)) => {
            let assignment = Assignment {
                targets: front,
                assign,
                values,
            };
            Ok((Simple::Assign(boxed(alloc, assignment)?), rest))
        }
        Err(stop) => {
            drop(front);
            Err(stop)
        }
    }
}

/// The simple statement in front, outside a header, whose parts are at most `inner` high.
///
/// # Errors
///
/// [`Stop::Grammar`] where none stands there, with the offset in bytes of the first token that is no part of one;
/// [`Stop::TooHigh`] where a part would be too high, with the offset in bytes of what is too deep inside it; and
/// [`Stop::Memory`] where memory runs out.
pub fn simple<'a>(alloc: Global, ahead: Ahead<'a>, inner: u32) -> Result<(Simple, Ahead<'a>), Stop>
    requires { inner < 2 ^ 31 }
    ensures { Gives (λ x. (shape_simple x.0, x.1)) result (simple_at inner false ahead.entry) }
{
    let (front, _, rest) = exprs(alloc, ahead, false, inner)?;
    simple_behind(alloc, front, rest, false, inner)
}

/// The simple statement of a header that begins with `front`, at most `budget` high: `height` is how high `front` is.
///
/// # Errors
///
/// [`Stop::Grammar`] where none stands there, with the offset in bytes of the first token that is no part of one;
/// [`Stop::TooHigh`] where it would be too high, with the offset in bytes of what stands behind `front` or is too deep
/// there; and [`Stop::Memory`] where memory runs out.
pub fn header_simple<'a>(
    alloc: Global,
    front: Exprs,
    height: u32,
    ahead: Ahead<'a>,
    budget: u32,
) -> Result<(Simple, Ahead<'a>), Stop>
    requires few { budget < 2 ^ 31 }
    requires high { height ≡ exprs_height (shape_exprs front) }
    ensures { Gives (λ x. (shape_simple x.0, x.1)) result (simple_from budget true (shape_exprs front) ahead.entry) }
{
    if height >= budget {
        drop(front);
        return Err(Stop::TooHigh(ahead.offset()));
    }
    simple_behind(alloc, front, ahead, true, budget - 1)
}
