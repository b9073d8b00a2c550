//! Statements and blocks.
//!
//! What was read is dropped by name where reading stops behind it. That is one call; a `?` writes out the tree's drop.
ghost use Rattle.std.specs.Prelude.{◌≡◌, ◌<◌, ◌+◌, ◌^◌};
ghost use Rattle.go_tree_nodes.specs.token_core.declared.kind.Keyword.TheVariants as keyword;
ghost use Rattle.go_tree_nodes.specs.token_core.declared.kind.Operator.TheVariants as operator;
ghost use Rattle.go_tree_nodes.specs.Shapes.{shape_stmt, shape_branch, shape_else, lines_of};
ghost use Rattle.go_parse_reader.specs.types.mirrors.Giving.{Gives};
ghost use Rattle.go_parse_reader.specs.types.mirrors.Marks.{mark_at, keyword_at};
ghost use Rattle.go_parse_core.specs.stmts.mirrors.CodeShapes.{declare_at, lines_above, stmt_above, branches_above, branch_above};
ghost use Rattle.go_parse_core.specs.stmts.mirrors.StmtReading as reading;
ghost use Rattle.go_parse_core.specs.stmts.mirrors.StmtReading.{braced, return_at, stmt_at, block_at, branch_at};

use crate::stmts::headers::{for_head, if_head};
use crate::stmts::simple_stmts::simple;
use crate::stmts::value_decls::{value_decl, value_keyword};
use go_parse_reader::exprs::exprs;
use go_parse_reader::types::{Ahead, Stop, add, boxed, fitted};
use go_tree_nodes::text_core::Span;
use go_tree_nodes::token_core::{Keyword, Operator};
use go_tree_nodes::{Branch, Line, Loop, Otherwise, Stmt, ValueKind};
use std::alloc::Global;

/// What stands behind `const` or `var`, with types and values at most `inner` high.
fn declaration<'a>(
    alloc: Global,
    ahead: Ahead<'a>,
    kind: ValueKind,
    keyword: Span,
    inner: u32,
) -> Result<(Stmt, Ahead<'a>), Stop>
    requires { inner < 2 ^ 31 }
    ensures { Gives (λ x. (shape_stmt x.0, x.1)) result (declare_at inner kind keyword ahead.entry) }
{
    let (decl, rest) = value_decl(alloc, ahead, kind, keyword, inner)?;
    Ok((Stmt::Declare(boxed(alloc, decl)?), rest))
}

/// What stands behind `return`, with values at most `inner` high.
fn return_stmt<'a>(
    alloc: Global,
    ahead: Ahead<'a>,
    keyword: Span,
    inner: u32,
) -> Result<(Stmt, Ahead<'a>), Stop>
    requires { inner < 2 ^ 31 }
    ensures { Gives (λ x. (shape_stmt x.0, x.1)) result (return_at inner keyword ahead.entry) }
{
    if ahead.mark(Operator::Semicolon).is_some() || ahead.mark(Operator::CloseBrace).is_some() {
        return Ok((Stmt::Return(keyword, None), ahead));
    }
    let (values, _, rest) = exprs(alloc, ahead, false, inner)?;
    Ok((Stmt::Return(keyword, Some(boxed(alloc, values)?)), rest))
}

/// The statement in front, whose parts are at most `inner` high.
#[cycle(statements)]
fn statement<'a>(alloc: Global, ahead: Ahead<'a>, inner: u32) -> Result<(Stmt, Ahead<'a>), Stop>
    requires { inner + 1 < 2 ^ 31 }
    ensures { Gives (λ x. (shape_stmt x.0, x.1)) result (stmt_above inner ahead.entry) }
{
    if let Some((kind, keyword, rest)) = value_keyword(&ahead) {
        return declaration(alloc, rest, kind, keyword, inner);
    }
    if let Some((keyword, rest)) = ahead.word(Keyword::Return) {
        return return_stmt(alloc, rest, keyword, inner);
    }
    if let Some((keyword, rest)) = ahead.word(Keyword::Break) {
        return Ok((Stmt::Break(keyword), rest));
    }
    if let Some((keyword, rest)) = ahead.word(Keyword::Continue) {
        return Ok((Stmt::Continue(keyword), rest));
    }
    if let Some((keyword, rest)) = ahead.word(Keyword::If) {
        let (branch, rest) = branch(alloc, rest, keyword, inner)?;
        return Ok((Stmt::If(branch), rest));
    }
    if let Some((keyword, rest)) = ahead.word(Keyword::For) {
        return for_stmt(alloc, rest, keyword, inner);
    }
    without_keyword(alloc, ahead, inner)
}

/// The block, the empty statement or the simple statement in front, whose parts are at most `inner` high.
#[cycle(statements)]
fn without_keyword<'a>(
    alloc: Global,
    ahead: Ahead<'a>,
    inner: u32,
) -> Result<(Stmt, Ahead<'a>), Stop>
    requires { inner + 1 < 2 ^ 31 }
    ensures { Gives (λ x. (shape_stmt x.0, x.1)) result (reading.by_block inner (lines_above inner) ahead.entry (mark_at operator.OpenBrace ahead.entry)) }
{
    if ahead.mark(Operator::OpenBrace).is_some() {
        let (open, lines, close, rest) = block(alloc, ahead, inner + 1)?;
        return Ok((Stmt::Block(open, lines, close), rest));
    }
    if ahead.mark(Operator::Semicolon).is_some() {
        return Ok((Stmt::Empty, ahead));
    }
    let (simple, rest) = simple(alloc, ahead, inner)?;
    Ok((Stmt::Simple(simple), rest))
}

/// What stands behind `if`, with parts at most `inner` high.
#[cycle(statements)]
fn branch<'a>(
    alloc: Global,
    ahead: Ahead<'a>,
    keyword: Span,
    inner: u32,
) -> Result<(Box<Branch>, Ahead<'a>), Stop>
    requires { inner < 2 ^ 31 }
    ensures { Gives (λ x. (shape_branch x.0.value, x.1)) result (branch_above inner keyword ahead.entry) }
{
    let (head, rest) = if_head(alloc, ahead, inner)?;
    match branches(alloc, rest, inner) {
        Ok((open, then, close, otherwise, rest)) => {
            let branch = Branch {
                keyword,
                head,
                open,
                then,
                close,
                otherwise,
            };
            Ok((boxed(alloc, branch)?, rest))
        }
        Err(stop) => {
            drop(head);
            Err(stop)
        }
    }
}

/// What stands behind the head of an `if`: its block, and the `else` if it stands there, at most `inner` high.
#[cycle(statements)]
fn branches<'a>(
    alloc: Global,
    ahead: Ahead<'a>,
    inner: u32,
) -> Result<(Span, Vec<Line>, Span, Otherwise, Ahead<'a>), Stop>
    requires { inner < 2 ^ 31 }
    ensures { Gives (λ x. (((x.0, lines_of x.1.items, x.2), shape_else x.3), x.4)) result (branches_above inner ahead.entry) }
{
    let (open, then, close, rest) = block(alloc, ahead, inner)?;
    let (otherwise, rest) = otherwise(alloc, rest, inner)?;
    Ok((open, then, close, otherwise, rest))
}

/// The `else` in front if it stands there, and the block or the `if` behind it, at most `inner` high.
#[cycle(statements)]
fn otherwise<'a>(
    alloc: Global,
    ahead: Ahead<'a>,
    inner: u32,
) -> Result<(Otherwise, Ahead<'a>), Stop>
    requires { inner < 2 ^ 31 }
    ensures { Gives (λ x. (shape_else x.0, x.1)) result (reading.else_by (block_at inner) (branch_at inner) ahead.entry (keyword_at keyword.Else ahead.entry)) }
{
    let Some((keyword, rest)) = ahead.word(Keyword::Else) else {
        return Ok((Otherwise::Nothing, ahead));
    };
    if rest.mark(Operator::OpenBrace).is_some() {
        let (open, lines, close, rest) = block(alloc, rest, inner)?;
        return Ok((Otherwise::Block(keyword, open, lines, close), rest));
    }
    let (if_keyword, rest) = rest.need_word(Keyword::If)?;
    if inner == 0 {
        return Err(Stop::TooHigh(rest.offset()));
    }
    let (branch, rest) = branch(alloc, rest, if_keyword, inner - 1)?;
    Ok((Otherwise::If(keyword, branch), rest))
}

/// What stands behind `for`, with parts at most `inner` high.
#[cycle(statements)]
fn for_stmt<'a>(
    alloc: Global,
    ahead: Ahead<'a>,
    keyword: Span,
    inner: u32,
) -> Result<(Stmt, Ahead<'a>), Stop>
    requires { inner < 2 ^ 31 }
    ensures { Gives (λ x. (shape_stmt x.0, x.1)) result (reading.for_by inner (block_at inner) keyword ahead.entry) }
{
    let (head, rest) = for_head(alloc, ahead, inner)?;
    match block(alloc, rest, inner) {
        Ok((open, body, close, rest)) => {
            let whole = Loop {
                keyword,
                head,
                open,
                body,
                close,
            };
            Ok((Stmt::For(boxed(alloc, whole)?), rest))
        }
        Err(stop) => {
            drop(head);
            Err(stop)
        }
    }
}

/// The block in front, at most `budget` high: the place of its opening brace, its statements, the place of its closing
/// brace (the Go specification, "Blocks" and "Statements").
///
/// # Errors
///
/// [`Stop::Grammar`] where no block stands there, with the offset in bytes of the first token that is no part of one;
/// [`Stop::TooHigh`] where it would be too high, with the offset in bytes of what is too deep inside it; and
/// [`Stop::Memory`] where memory runs out.
#[cycle(statements)]
pub fn block<'a>(
    alloc: Global,
    ahead: Ahead<'a>,
    budget: u32,
) -> Result<(Span, Vec<Line>, Span, Ahead<'a>), Stop>
    requires { budget < 2 ^ 31 }
    ensures { Gives (λ x. ((x.0, lines_of x.1.items, x.2), x.3)) result (braced (block_at budget) ahead.entry) }
{
    let (open, rest) = ahead.need_mark(Operator::OpenBrace)?;
    if budget == 0 {
        return Err(Stop::TooHigh(rest.offset()));
    }
    let (all, rest) = lines(alloc, rest, budget - 1)?;
    let (close, rest) = rest.need_mark(Operator::CloseBrace)?;
    Ok((open, all, close, rest))
}

/// The statements in front up to a closing brace, each at most `budget` high.
#[cycle(statements)]
fn lines<'a>(alloc: Global, ahead: Ahead<'a>, budget: u32) -> Result<(Vec<Line>, Ahead<'a>), Stop>
    requires { budget < 2 ^ 31 }
    ensures { Gives (λ x. (lines_of x.0.items, x.1)) result (lines_above budget ahead.entry) }
{
    let mut all = Vec::new(alloc);
    let mut rest = ahead;
    'turns: while rest.mark(Operator::CloseBrace).is_none() {
        if budget == 0 {
            return Err(Stop::TooHigh(rest.offset()));
        }
        let (stmt, behind) = statement(alloc, rest, budget - 1)?;
        // Into the list before what can fail: the drop of a list is one call.
        let (semicolon, behind) = behind.some_mark(Operator::Semicolon);
        add(&mut all, Line { stmt, semicolon })?;
        if semicolon.is_none() {
            // The last semicolon before the brace may be left out.
            behind.need_mark(Operator::CloseBrace)?;
            return Ok((fitted(all), behind));
        }
        rest = behind;
    }
    Ok((fitted(all), rest))
}
