//! The code of expressions.
ghost use Rattle.std.specs.Prelude.{◌≡◌, ◌++◌, IfOk, OnOk};
ghost use Rattle.go_tree_nodes.specs.Shapes.{shape, shape_call, items_of};
ghost use Rattle.go_code_core.specs.Code.{binary_code, call_end, expr_code, items_code, letters, name_code, panic_end, push, receiver_code, word_value};
ghost use Rattle.go_code_core.specs.fragments.Names.{frame_of};
ghost use Rattle.go_code_core.specs.mirrors.Written.{applied};

use crate::code::Code;
use crate::fragments::{
    CodeNames, ConstantWord, Frame, Gives, Meaning, binary_instruction, called, expr_gives, folded,
    is_method, slot_of, unary_instruction,
};
use go_constant_core::{Constant, natural};
use go_object_core::instructions::{Distance, Instruction, Letters, Word};
use go_tree_nodes::token_core::Operator;
use go_tree_nodes::{BinaryExpr, CallExpr, Expr, Item};
use std::alloc::AllocError;

fn word_value(value: ConstantWord) -> i64
    ensures { result ≡ word_value value }
{
    match value {
        ConstantWord::Int(z) => z,
        ConstantWord::Bool(true) => 1,
        ConstantWord::Bool(false) => 0,
    }
}

// Pushes a constant.
fn push(code: &mut Code, value: ConstantWord) -> Result<(), AllocError>
    ensures { OnOk result (code.new ≡ push value ++ code.old) }
{
    code.put(Instruction::Push(word_value(value)))
}

// Pushes what a name comes to.
fn push_name(code: &mut Code, slots: &[Option<usize>], meaning: Meaning) -> Result<(), AllocError>
    ensures { OnOk result (code.new ≡ name_code slots.now meaning ++ code.old) }
{
    match meaning {
        Meaning::Variable(at, _) => match slot_of(slots, at) {
            Some(slot) => code.put(Instruction::Load(slot)),
            None => Ok(()),
        },
        Meaning::Constant(value) => push(code, value),
        _ => Ok(()),
    }
}

// What some arguments are over.
fn letters<N: CodeNames>(frame: &Frame<'_, N>, items: &Vec<Item>) -> Result<Letters, AllocError>
    ensures { IfOk result (λ l. l ≡ letters (frame_of (N.looks frame.now.names.now) frame.now.slots.now) (items_of items.now.items)) }
{
    let mut letters = Letters::new(frame.alloc);
    for item in items {
        match expr_gives(frame, &item.value) {
            Gives::One(word) => letters.push(word)?,
            Gives::Nothing | Gives::Other => {}
        }
    }
    Ok(letters)
}

// What stands behind the arguments of `panic`, which there is one of, by what it is over.
fn end_panic(code: &mut Code, letters: &[Word]) -> Result<(), AllocError>
    ensures { OnOk result (code.new ≡ panic_end letters.now ++ code.old) }
{
    match letters {
        [] => Ok(()),
        [letter, ..] => code.put(Instruction::Panic(*letter)),
    }
}

// What stands behind the receiver and the arguments of a call.
fn end_call<N: CodeNames>(
    code: &mut Code,
    frame: &Frame<'_, N>,
    called: Meaning,
    reference: usize,
    items: &Vec<Item>,
) -> Result<(), AllocError>
    ensures { OnOk result (code.new ≡ call_end (frame_of (N.looks frame.now.names.now) frame.now.slots.now) called reference (items_of items.now.items) ++ code.old) }
{
    match called {
        Meaning::Function(_) => code.put(Instruction::Call {
            reference,
            arguments: items.len(),
        }),
        Meaning::Method(_) => code.put(Instruction::Call {
            reference,
            arguments: items.len() + 1,
        }),
        Meaning::Println => {
            let letters = letters(frame, items)?;
            code.put(Instruction::Println(letters))
        }
        Meaning::Panic => {
            let letters = letters(frame, items)?;
            end_panic(code, letters.words())
        }
        Meaning::Type(_) | Meaning::Variable(_, _) | Meaning::Constant(_) | Meaning::Other => Ok(
            (),
        ),
    }
}

/// The code of an expression.
#[cycle(expr)]
pub(crate) fn expr<N: CodeNames>(
    code: &mut Code,
    frame: &Frame<'_, N>,
    expr: &Expr,
) -> Result<(), AllocError>
    ensures { OnOk result (code.new ≡ expr_code (frame_of (N.looks frame.now.names.now) frame.now.slots.now) (shape expr.now) ++ code.old) }
{
    match expr {
        Expr::Integer(n, _) => match natural(*n) {
            Constant::Int(z) => push(code, ConstantWord::Int(z)),
            _ => Ok(()),
        },
        Expr::Name(ident) => push_name(
            code,
            frame.slots,
            frame.names.meaning(ident.span.start as usize),
        ),
        Expr::Paren(_, inner, _) => self::expr(code, frame, inner),
        Expr::Unary(operator, _, operand) => match folded(frame, expr)? {
            Some(value) => push(code, value),
            None => {
                code.put_some(unary_instruction(*operator))?;
                self::expr(code, frame, operand)
            }
        },
        Expr::Binary(binary) => match folded(frame, expr)? {
            Some(value) => push(code, value),
            None => operation(code, frame, binary),
        },
        Expr::Select(select) => push_name(
            code,
            frame.slots,
            frame.names.meaning(select.name.span.start as usize),
        ),
        Expr::Call(call) => match folded(frame, expr)? {
            Some(value) => push(code, value),
            None => call_code(code, frame, call),
        },
        Expr::Text(_) => Ok(()),
        Expr::Literal(_) => Ok(()),
        Expr::StructLiteral(_) => Ok(()),
    }
}

// An operator between two operands.
#[cycle(expr)]
fn operation<N: CodeNames>(
    code: &mut Code,
    frame: &Frame<'_, N>,
    binary: &BinaryExpr,
) -> Result<(), AllocError>
    ensures { OnOk result (code.new ≡ binary_code binary.now.operator (expr_code (frame_of (N.looks frame.now.names.now) frame.now.slots.now) (shape binary.now.left)) (expr_code (frame_of (N.looks frame.now.names.now) frame.now.slots.now) (shape binary.now.right)) ++ code.old) }
{
    match binary.operator {
        Operator::LogicalAnd => {
            code.put(Instruction::Push(0))?;
            let end = code.len();
            code.put(Instruction::Jump(Distance::Forward(1)))?;
            expr(code, frame, &binary.right)?;
            code.put(Instruction::JumpFalse(code.len() - end))?;
            expr(code, frame, &binary.left)
        }
        Operator::LogicalOr => {
            let end = code.len();
            expr(code, frame, &binary.right)?;
            code.put(Instruction::Jump(Distance::Forward(code.len() - end)))?;
            code.put(Instruction::Push(1))?;
            code.put(Instruction::JumpFalse(2))?;
            expr(code, frame, &binary.left)
        }
        _ => {
            code.put_some(binary_instruction(binary.operator))?;
            expr(code, frame, &binary.right)?;
            expr(code, frame, &binary.left)
        }
    }
}

// A call that is no constant.
#[cycle(expr)]
fn call_code<N: CodeNames>(
    code: &mut Code,
    frame: &Frame<'_, N>,
    call: &CallExpr,
) -> Result<(), AllocError>
    ensures { OnOk result (code.new ≡ applied (frame_of (N.looks frame.now.names.now) frame.now.slots.now) (shape_call call.now) ++ code.old) }
{
    let called = called(frame.names, &call.callee);
    let reference = frame.names.reference(call.open.start as usize);
    end_call(code, frame, called, reference, &call.args)?;
    arguments(code, frame, &call.args)?;
    receiver(code, frame, &call.callee)
}

// The receiver of a method that is called.
#[cycle(expr)]
fn receiver<N: CodeNames>(
    code: &mut Code,
    frame: &Frame<'_, N>,
    callee: &Expr,
) -> Result<(), AllocError>
    ensures { OnOk result (code.new ≡ receiver_code (frame_of (N.looks frame.now.names.now) frame.now.slots.now) (shape callee.now) ++ code.old) }
{
    match callee {
        Expr::Select(select) => {
            if is_method(frame.names.meaning(select.name.span.start as usize)) {
                expr(code, frame, &select.operand)
            } else {
                Ok(())
            }
        }
        Expr::Paren(_, inner, _) => receiver(code, frame, inner),
        Expr::Integer(_, _)
        | Expr::Text(_)
        | Expr::Name(_)
        | Expr::Unary(_, _, _)
        | Expr::Binary(_) => return Ok(()),
        Expr::Call(_) => return Ok(()),
        Expr::Literal(_) => return Ok(()),
        Expr::StructLiteral(_) => return Ok(()),
    }
}

// The arguments of a call.
#[cycle(expr)]
fn arguments<N: CodeNames>(
    code: &mut Code,
    frame: &Frame<'_, N>,
    items: &Vec<Item>,
) -> Result<(), AllocError>
    ensures { OnOk result (code.new ≡ items_code (frame_of (N.looks frame.now.names.now) frame.now.slots.now) (items_of items.now.items) ++ code.old) }
{
    for at in (0..items.len()).rev() {
        expr(code, frame, &items[at].value)?;
    }
    Ok(())
}
