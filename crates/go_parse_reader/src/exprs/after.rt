//! What comes behind an operand.
ghost use Rattle.std.specs.Prelude.{◌≡◌, ◌<◌};
ghost use Rattle.std.specs.Option.{option_map};
ghost use Rattle.go_parse_reader.specs.exprs.mirrors.ExprReading.{next_at};
ghost use Rattle.go_parse_reader.specs.exprs.mirrors.CodeShapes.{next_of};

use crate::exprs::operators::infix;
use crate::types::Ahead;
use go_tree_nodes::text_core::Span;
use go_tree_nodes::token_core::Operator;

/// What may come behind an operand.
#[derive(Clone, Copy)]
pub enum After {
    /// A binary operator.
    Operate(Operator),
    /// The dot of a selector.
    Pick,
    /// The opening parenthesis of a call.
    Apply,
}

/// What comes behind an operand, of binary operators only those that have at least the rank `least`: its kind, its
/// place, and what is behind it. No operator has the rank 0.
pub fn next<'a>(ahead: &Ahead<'a>, least: u32) -> Option<(After, Span, Ahead<'a>)>
    requires { 0 < least }
    ensures { option_map (λ x. next_of x.0 x.1 x.2) result ≡ next_at least ahead.now }
{
    if let Some((op, span, rest)) = infix(ahead, least) {
        return Some((After::Operate(op), span, rest));
    }
    if let Some((dot, rest)) = ahead.mark(Operator::Dot) {
        return Some((After::Pick, dot, rest));
    }
    let (open, rest) = ahead.mark(Operator::OpenParen)?;
    Some((After::Apply, open, rest))
}
