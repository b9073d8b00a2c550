//! The instructions of operators.
ghost use Rattle.std.specs.Prelude.{◌≡◌};
ghost use Rattle.go_code_core.specs.fragments.Operators.{binary_instruction, step_operator, unary_instruction, update_operator};

use go_object_core::instructions::Instruction;
use go_tree_nodes::token_core::Operator;

/// That of a unary operator: none of `+`, which leaves its operand as it is, and of one that no constant and no variable over `int` or `bool` has.
pub fn unary_instruction(operator: Operator) -> Option<Instruction>
    ensures { result ≡ unary_instruction operator }
{
    match operator {
        Operator::Minus => Some(Instruction::Neg),
        Operator::Not => Some(Instruction::Not),
        _ => None,
    }
}

/// That of a binary operator that takes both operands: so none of `&&` and `||`.
pub fn binary_instruction(operator: Operator) -> Option<Instruction>
    ensures { result ≡ binary_instruction operator }
{
    match operator {
        Operator::Plus => Some(Instruction::Add),
        Operator::Minus => Some(Instruction::Sub),
        Operator::Star => Some(Instruction::Mul),
        Operator::Slash => Some(Instruction::Div),
        Operator::Percent => Some(Instruction::Rem),
        Operator::Equal => Some(Instruction::Eq),
        Operator::NotEqual => Some(Instruction::Ne),
        Operator::Less => Some(Instruction::Lt),
        Operator::LessEqual => Some(Instruction::Le),
        Operator::Greater => Some(Instruction::Gt),
        Operator::GreaterEqual => Some(Instruction::Ge),
        _ => None,
    }
}

/// What `++` or `--` does with its operand and 1: none of another one.
pub fn step_operator(operator: Operator) -> Option<Instruction>
    ensures { result ≡ step_operator operator }
{
    match operator {
        Operator::Increment => Some(Instruction::Add),
        Operator::Decrement => Some(Instruction::Sub),
        _ => None,
    }
}

/// What an operator with `=` does, as `+=`: none of another one.
pub fn update_operator(operator: Operator) -> Option<Instruction>
    ensures { result ≡ update_operator operator }
{
    match operator {
        Operator::PlusAssign => Some(Instruction::Add),
        Operator::MinusAssign => Some(Instruction::Sub),
        Operator::StarAssign => Some(Instruction::Mul),
        Operator::SlashAssign => Some(Instruction::Div),
        Operator::PercentAssign => Some(Instruction::Rem),
        _ => None,
    }
}
