//! Operators: how strongly they bind, and which may stand before their operand.
//!
//! The Go specification, "Operators", "Operator precedence".
ghost use Rattle.std.specs.Prelude.{◌≡◌};
ghost use Rattle.go_tree_nodes.specs.Rules as rules;

use go_token_core::Operator;

/// The rank of the operators that bind most weakly.
pub const LOWEST: u32 = 1;

/// The rank of unary operators, above that of each binary one.
pub const UNARY: u32 = 6;

/// The rank of an operator: how strongly it binds its operands; 0 for what is no binary operator.
pub fn rank(op: Operator) -> u32
    ensures { result ≡ rules.rank_of op }
{
    match op {
        Operator::Star
        | Operator::Slash
        | Operator::Percent
        | Operator::ShiftLeft
        | Operator::ShiftRight
        | Operator::And
        | Operator::AndNot => 5,
        Operator::Plus | Operator::Minus | Operator::Or | Operator::Caret => 4,
        Operator::Equal
        | Operator::NotEqual
        | Operator::Less
        | Operator::LessEqual
        | Operator::Greater
        | Operator::GreaterEqual => 3,
        Operator::LogicalAnd => 2,
        Operator::LogicalOr => 1,
        _ => 0,
    }
}

/// Whether an operator may stand before its operand.
pub fn is_unary(op: Operator) -> bool
    ensures { result ≡ rules.is_unary op }
{
    matches!(
        op,
        Operator::Plus
            | Operator::Minus
            | Operator::Not
            | Operator::Caret
            | Operator::Star
            | Operator::And
    )
}
