//! Headers of `if` and `for`.
//!
//! What was read is dropped by name where reading stops behind it. That is one call; a `?` writes out the tree's drop.
ghost use Rattle.std.specs.Prelude.{◌≡◌, ◌<◌, ◌^◌};
ghost use Rattle.go_tree_nodes.specs.Heights.{exprs_height};
ghost use Rattle.go_tree_nodes.specs.Shapes.{shape_exprs, shape_some_expr, shape_some_simple, shape_if, shape_for};
ghost use Rattle.go_parse_reader.specs.types.mirrors.Giving.{Gives};
ghost use Rattle.go_parse_reader.specs.types.mirrors.Marks.{mark_at};
ghost use Rattle.go_parse_core.specs.stmts.mirrors.CodeShapes.{init_at, condition_at, test_at, post_at, clauses_at};
ghost use Rattle.go_parse_core.specs.stmts.mirrors.StmtReading.{if_at, for_at};
ghost use Rattle.go_parse_core.specs.stmts.mirrors.StmtReading as reading;
ghost use Rattle.go_tree_nodes.specs.token_core.declared.kind.Operator.TheVariants as operator;

use crate::stmts::simple_stmts::{header_simple, single};
use go_parse_reader::exprs::{expr, exprs};
use go_parse_reader::types::{Ahead, Stop};
use go_tree_nodes::text_core::Span;
use go_tree_nodes::token_core::Operator;
use go_tree_nodes::{Expr, Exprs, ForHead, IfHead, InitPart, Simple};
use std::alloc::Global;

/// What stands between `if` and its block, with parts at most `budget` high.
///
/// # Errors
///
/// [`Stop::Grammar`] where none stands there, with the offset in bytes of the first token that is no part of one;
/// [`Stop::TooHigh`] where it would be too high, with the offset in bytes of what is too deep inside it; and
/// [`Stop::Memory`] where memory runs out.
pub fn if_head<'a>(
    alloc: Global,
    ahead: Ahead<'a>,
    budget: u32,
) -> Result<(IfHead, Ahead<'a>), Stop>
    requires { budget < 2 ^ 31 }
    ensures { Gives (λ x. (shape_if x.0, x.1)) result (if_at budget ahead.entry) }
{
    if let Some((semicolon, rest)) = ahead.mark(Operator::Semicolon) {
        let simple = None;
        return condition(alloc, rest, InitPart { simple, semicolon }, budget);
    }
    let (front, height, rest) = exprs(alloc, ahead, true, budget)?;
    if rest.mark(Operator::OpenBrace).is_some() {
        let condition = single(front, &rest)?;
        let init = None;
        return Ok((IfHead { init, condition }, rest));
    }
    let (init, rest) = init_part(alloc, front, height, rest, budget)?;
    condition(alloc, rest, init, budget)
}

/// The statement that begins with `front`, at most `budget` high, and the semicolon that has to stand behind it:
/// `height` is how high `front` is.
fn init_part<'a>(
    alloc: Global,
    front: Exprs,
    height: u32,
    ahead: Ahead<'a>,
    budget: u32,
) -> Result<(InitPart, Ahead<'a>), Stop>
    requires few { budget < 2 ^ 31 }
    requires high { height ≡ exprs_height (shape_exprs front) }
    ensures { Gives (λ x. ((shape_some_simple x.0.simple, x.0.semicolon), x.1)) result (init_at budget (shape_exprs front) ahead.entry) }
{
    let (simple, rest) = header_simple(alloc, front, height, ahead, budget)?;
    match rest.need_mark(Operator::Semicolon) {
        Ok((semicolon, rest)) => {
            let simple = Some(simple);
            Ok((InitPart { simple, semicolon }, rest))
        }
        Err(stop) => {
            drop(simple);
            Err(stop)
        }
    }
}

/// The condition in front, at most `budget` high, behind `init`.
fn condition<'a>(
    alloc: Global,
    ahead: Ahead<'a>,
    init: InitPart,
    budget: u32,
) -> Result<(IfHead, Ahead<'a>), Stop>
    requires { budget < 2 ^ 31 }
    ensures { Gives (λ x. (shape_if x.0, x.1)) result (condition_at budget (shape_some_simple init.simple) init.semicolon ahead.entry) }
{
    match expr(alloc, ahead, true, budget) {
        Ok((condition, _, rest)) => {
            let init = Some(init);
            Ok((IfHead { init, condition }, rest))
        }
        Err(stop) => {
            drop(init);
            Err(stop)
        }
    }
}

/// The condition behind the first semicolon of a `for`, at most `budget` high, if one stands there, and the place of
/// the second semicolon.
fn test<'a>(
    alloc: Global,
    ahead: Ahead<'a>,
    budget: u32,
) -> Result<(Option<Expr>, Span, Ahead<'a>), Stop>
    requires { budget < 2 ^ 31 }
    ensures { Gives (λ x. ((shape_some_expr x.0, x.1), x.2)) result (test_at budget ahead.entry) }
{
    if let Some((semicolon, rest)) = ahead.mark(Operator::Semicolon) {
        return Ok((None, semicolon, rest));
    }
    let (test, _, rest) = expr(alloc, ahead, true, budget)?;
    match rest.need_mark(Operator::Semicolon) {
        Ok((semicolon, rest)) => Ok((Some(test), semicolon, rest)),
        Err(stop) => {
            drop(test);
            Err(stop)
        }
    }
}

/// The statement behind the second semicolon of a `for`, at most `budget` high, if one stands there. It is no short
/// declaration.
fn post<'a>(
    alloc: Global,
    ahead: Ahead<'a>,
    budget: u32,
) -> Result<(Option<Simple>, Ahead<'a>), Stop>
    requires { budget < 2 ^ 31 }
    ensures { Gives (λ x. (shape_some_simple x.0, x.1)) result (post_at budget ahead.entry) }
{
    if ahead.mark(Operator::OpenBrace).is_some() {
        return Ok((None, ahead));
    }
    let (front, height, rest) = exprs(alloc, ahead, true, budget)?;
    let (simple, rest) = header_simple(alloc, front, height, rest, budget)?;
    if let Simple::Define(..) = simple {
        drop(simple);
        return Err(Stop::Grammar(rest.offset()));
    }
    Ok((Some(simple), rest))
}

/// The places of the two semicolons of a `for`, from the first on, with the condition between them and the statement
/// behind them where these stand, at most `budget` high.
fn clauses<'a>(
    alloc: Global,
    ahead: Ahead<'a>,
    budget: u32,
) -> Result<(Span, Option<Expr>, Span, Option<Simple>, Ahead<'a>), Stop>
    requires { budget < 2 ^ 31 }
    ensures { Gives (λ x. ((x.0, shape_some_expr x.1, x.2, shape_some_simple x.3), x.4)) result (clauses_at budget ahead.entry) }
{
    let (first, rest) = ahead.need_mark(Operator::Semicolon)?;
    let (test, second, rest) = test(alloc, rest, budget)?;
    match post(alloc, rest, budget) {
        Ok((post, rest)) => Ok((first, test, second, post, rest)),
        Err(stop) => {
            drop(test);
            Err(stop)
        }
    }
}

/// What stands behind `init` in the head of a `for`, from the first semicolon on, with parts at most `budget` high.
fn behind_init<'a>(
    alloc: Global,
    ahead: Ahead<'a>,
    init: Option<Simple>,
    budget: u32,
) -> Result<(ForHead, Ahead<'a>), Stop>
    requires { budget < 2 ^ 31 }
    ensures { Gives (λ x. (shape_for x.0, x.1)) result (reading.for_clauses budget (shape_some_simple init) (mark_at operator.Semicolon ahead.entry)) }
{
    match clauses(alloc, ahead, budget) {
        Ok((first, test, second, post, rest)) => {
            Ok((ForHead::Clauses(init, first, test, second, post), rest))
        }
        Err(stop) => {
            drop(init);
            Err(stop)
        }
    }
}

/// What stands between `for` and its block, with parts at most `budget` high.
///
/// # Errors
///
/// [`Stop::Grammar`] where none stands there, with the offset in bytes of the first token that is no part of one;
/// [`Stop::TooHigh`] where it would be too high, with the offset in bytes of what is too deep inside it; and
/// [`Stop::Memory`] where memory runs out.
pub fn for_head<'a>(
    alloc: Global,
    ahead: Ahead<'a>,
    budget: u32,
) -> Result<(ForHead, Ahead<'a>), Stop>
    requires { budget < 2 ^ 31 }
    ensures { Gives (λ x. (shape_for x.0, x.1)) result (for_at budget ahead.entry) }
{
    if ahead.mark(Operator::OpenBrace).is_some() {
        return Ok((ForHead::Forever, ahead));
    }
    if ahead.mark(Operator::Semicolon).is_some() {
        return behind_init(alloc, ahead, None, budget);
    }
    let (front, height, rest) = exprs(alloc, ahead, true, budget)?;
    if rest.mark(Operator::OpenBrace).is_some() {
        let condition = single(front, &rest)?;
        return Ok((ForHead::While(condition), rest));
    }
    let (init, rest) = header_simple(alloc, front, height, rest, budget)?;
    behind_init(alloc, rest, Some(init), budget)
}
