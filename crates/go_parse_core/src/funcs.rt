//! Functions and methods.
ghost use Rattle.std.specs.Prelude.{◌≡◌, ◌<◌, ◌^◌, IfOk};
ghost use Rattle.go_tree_nodes.specs.token_core.declared.kind.Operator.TheVariants as operator;
ghost use Rattle.go_tree_nodes.specs.Shapes.{func_of};
ghost use Rattle.go_parse_reader.specs.types.mirrors.Giving.{Gives};
ghost use Rattle.go_parse_reader.specs.types.mirrors.Marks.{mark_at, name_at};
ghost use Rattle.go_parse_core.specs.mirrors.FileReading as reading;
ghost use Rattle.go_parse_core.specs.mirrors.FileReading.{func_at, is_receiver_name, receiver_at, receiver_by};

use crate::stmts::block;
use go_parse_reader::types::{Ahead, Stop, signature, type_name};
use go_tree_nodes::text_core::Span;
use go_tree_nodes::token_core::Operator;
use go_tree_nodes::{FuncDecl, Ident, Receiver};
use std::alloc::{AllocError, Global};

/// Whether what stands behind the name of a receiver is in front.
fn is_behind_name(ahead: &Ahead<'_>) -> bool
    ensures { result ≡ is_receiver_name ahead.now }
{
    ahead.mark(Operator::Star).is_some() || ahead.behind_name().is_some()
}

/// The name of a receiver in front, if it has one: a name before a star or another name.
fn receiver_name<'a>(
    alloc: Global,
    ahead: Ahead<'a>,
) -> Result<(Option<Ident>, Ahead<'a>), AllocError>
    ensures { IfOk result (λ x. (x.0, x.1) ≡ reading.receiver_name ahead.entry (name_at ahead.entry)) }
{
    if let Some((name, rest)) = ahead.name(alloc)? {
        if is_behind_name(&rest) {
            return Ok((Some(name), rest));
        }
    }
    Ok((None, ahead))
}

/// The receiver in front, behind its opening parenthesis.
fn receiver<'a>(
    alloc: Global,
    ahead: Ahead<'a>,
    open_paren: Span,
) -> Result<(Receiver, Ahead<'a>), Stop>
    ensures { Gives (λ x. (x.0, x.1)) result (receiver_at open_paren ahead.entry) }
{
    let (name, rest) = receiver_name(alloc, ahead)?;
    let (star, rest) = rest.some_mark(Operator::Star);
    let (base, rest) = type_name(alloc, rest)?;
    let (comma, rest) = rest.some_mark(Operator::Comma);
    match rest.need_mark(Operator::CloseParen) {
        Ok((close_paren, rest)) => {
            let receiver = Receiver {
                open_paren,
                name,
                star,
                base,
                comma,
                close_paren,
            };
            Ok((receiver, rest))
        }
        Err(stop) => {
            drop((name, base));
            Err(stop)
        }
    }
}

/// The receiver in front, if a parenthesis opens one.
fn some_receiver<'a>(alloc: Global, ahead: Ahead<'a>) -> Result<(Option<Receiver>, Ahead<'a>), Stop>
    ensures { Gives (λ x. (x.0, x.1)) result (receiver_by ahead.entry (mark_at operator.OpenParen ahead.entry)) }
{
    let Some((open_paren, rest)) = ahead.mark(Operator::OpenParen) else {
        return Ok((None, ahead));
    };
    let (receiver, rest) = receiver(alloc, rest, open_paren)?;
    Ok((Some(receiver), rest))
}

/// What stands behind `func`, with types and a body at most `budget` high.
#[tactic(auto, unfolding(crate::specs::mirrors::FileReading::func_at))]
pub fn func<'a>(
    alloc: Global,
    ahead: Ahead<'a>,
    func: Span,
    budget: u32,
) -> Result<(FuncDecl, Ahead<'a>), Stop>
    requires { budget < 2 ^ 31 }
    ensures { Gives (λ x. (func_of x.0, x.1)) result (func_at budget func ahead.entry) }
{
    let (receiver, rest) = some_receiver(alloc, ahead)?;
    let (name, rest) = match rest.need_name(alloc) {
        Ok(found) => found,
        Err(stop) => {
            drop(receiver);
            return Err(stop);
        }
    };
    let (signature, rest) = match signature(alloc, rest, budget) {
        Ok(found) => found,
        Err(stop) => {
            drop((receiver, name));
            return Err(stop);
        }
    };
    match block(alloc, rest, budget) {
        Ok((open_brace, body, close_brace, rest)) => {
            let decl = FuncDecl {
                func,
                receiver,
                name,
                signature,
                open_brace,
                body,
                close_brace,
            };
            Ok((decl, rest))
        }
        Err(stop) => {
            drop((receiver, name, signature));
            Err(stop)
        }
    }
}
