//! Expressions with commas between them.
ghost use Rattle.std.specs.Prelude.{◌≡◌, ◌≤◌, ◌<◌, ◌^◌, IfOk};
ghost use Rattle.go_tree_nodes.specs.Shapes.{shape_exprs};
ghost use Rattle.go_tree_nodes.specs.Heights.{exprs_height};
ghost use Rattle.go_parse_reader.specs.types.mirrors.Giving.{Gives};
ghost use Rattle.go_parse_reader.specs.exprs.mirrors.CodeShapes.{GivesBehind, HighBehind};
ghost use Rattle.go_parse_reader.specs.exprs.mirrors.ExprReading.{exprs_at};

use crate::exprs::expr_reader::expr;
use crate::types::{Ahead, Stop, add, fitted};
use go_tree_nodes::token_core::Operator;
use go_tree_nodes::{Exprs, NextExpr};
use std::alloc::Global;

/// The expressions in front with commas between them, each at most `budget` high, in a header or not; with the
/// height of the highest.
///
/// # Errors
///
/// [`Stop::Grammar`] where one is missing, with the offset in bytes of the first token that is no part of one;
/// [`Stop::TooHigh`] where one would be too high, with the offset in bytes of what is too deep inside it; and
/// [`Stop::Memory`] where memory runs out.
pub fn exprs<'a>(
    alloc: Global,
    ahead: Ahead<'a>,
    header: bool,
    budget: u32,
) -> Result<(Exprs, u32, Ahead<'a>), Stop>
    requires { budget < 2 ^ 31 }
    ensures tree { Gives (λ x. (shape_exprs x.0, x.2)) result (exprs_at budget header ahead.entry) }
    ensures height { IfOk result (λ x. (x.1 ≡ exprs_height (shape_exprs x.0)) × (x.1 ≤ budget)) }
{
    let (first, high, rest) = expr(alloc, ahead, header, budget)?;
    match next_exprs(alloc, rest, header, budget) {
        Ok((more, more_high, rest)) => Ok((Exprs { first, more }, high.max(more_high), rest)),
        Err(stop) => {
            // By name: one call, where the end of the scope would take the tree apart kind by kind.
            drop(first);
            Err(stop)
        }
    }
}

/// The expressions in front with a comma before each, each at most `budget` high, in a header or not; with the height
/// of the highest.
fn next_exprs<'a>(
    alloc: Global,
    ahead: Ahead<'a>,
    header: bool,
    budget: u32,
) -> Result<(Vec<NextExpr>, u32, Ahead<'a>), Stop>
    requires { budget < 2 ^ 31 }
    ensures tree { GivesBehind (λ x. (x.0.items, x.2)) result budget header ahead.entry }
    ensures height { IfOk result (λ x. HighBehind x.0.items x.1 × (x.1 ≤ budget)) }
{
    let mut more = Vec::new(alloc);
    let mut high: u32 = 0;
    let mut rest = ahead;
    'turns: while let Some((comma, after)) = rest.mark(Operator::Comma) {
        let (expr, expr_high, after) = expr(alloc, after, header, budget)?;
        add(&mut more, NextExpr { comma, expr })?;
        high = high.max(expr_high);
        rest = after;
    }
    Ok((fitted(more), high, rest))
}
