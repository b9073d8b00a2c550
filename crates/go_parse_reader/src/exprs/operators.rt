//! Operators in front.
ghost use Rattle.std.specs.Prelude.{◌≡◌, ◌<◌};
ghost use Rattle.go_tree_nodes.specs.Rules as rules;
ghost use Rattle.go_parse_reader.specs.types.mirrors.Marks.{mark_that};
ghost use Rattle.go_parse_reader.specs.exprs.mirrors.ExprReading.{has_rank};

use crate::types::Ahead;
use go_tree_nodes::text_core::Span;
use go_tree_nodes::token_core::Operator;
use go_tree_nodes::{is_unary, rank};

/// The binary operator in front if it has at least the rank `least`, and what is behind it. No operator has the rank 0.
pub fn infix<'a>(ahead: &Ahead<'a>, least: u32) -> Option<(Operator, Span, Ahead<'a>)>
    requires { 0 < least }
    ensures { result ≡ mark_that (has_rank least) ahead.now }
{
    let (op, span, rest) = ahead.any_mark()?;
    if rank(op) >= least {
        Some((op, span, rest))
    } else {
        None
    }
}

/// The unary operator in front, and what is behind it.
pub fn prefix<'a>(ahead: &Ahead<'a>) -> Option<(Operator, Span, Ahead<'a>)>
    ensures { result ≡ mark_that rules.is_unary ahead.now }
{
    let (op, span, rest) = ahead.any_mark()?;
    if is_unary(op) {
        Some((op, span, rest))
    } else {
        None
    }
}
