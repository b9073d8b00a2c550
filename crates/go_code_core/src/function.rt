//! The code of a function.
ghost use Rattle.std.specs.Prelude.{◌≡◌, [], ◌∷◌, IfOk, length};
ghost use Rattle.go_object_core.specs.declared.instructions.instruction.Instruction.TheVariants as instructions;
ghost use Rattle.go_tree_nodes.specs.Shapes.{func_of};
ghost use Rattle.go_code_core.specs.Code.{body_code, code_of, framed_code};
ghost use Rattle.go_code_core.specs.fragments.Names.{frame_of};
ghost use Rattle.go_code_core.specs.fragments.Slots.{slots_of};

use crate::code::Code;
use crate::fragments::{CodeNames, Frame, in_fragment, slots_of};
use crate::stmts::{Marks, lines};
use go_object_core::instructions::Instruction;
use go_tree_nodes::FuncDecl;
use std::alloc::{AllocError, Global};

/// A function as it runs.
#[derive(Drop)]
pub struct FunctionParts {
    /// How many slots it has: for its receiver, its parameters, and its local variables but `_`.
    pub slots: usize,
    pub code: Vec<Instruction>,
}

// The code of a body, which ends without a result.
fn body_code<N: CodeNames>(frame: &Frame<'_, N>, func: &FuncDecl) -> Result<Code, AllocError>
    ensures { IfOk result (λ code. code ≡ body_code (frame_of (N.looks frame.now.names.now) frame.now.slots.now) (func_of func.now)) }
{
    let mut code = Code::new(frame.alloc);
    code.put(Instruction::Return(false))?;
    let marks = Marks {
        ends: 1,
        goes_on: 1,
    };
    lines(&mut code, frame, marks, &func.body)?;
    Ok(code)
}

// The one instruction of a function of which no code is made.
fn no_code(alloc: Global) -> Result<Code, AllocError>
    ensures { IfOk result (λ code. code ≡ instructions.Outside ∷ []) }
{
    let mut code = Code::new(alloc);
    code.put(Instruction::Outside)?;
    Ok(code)
}

// The code of a function whose slots are known.
fn framed_code<N: CodeNames>(
    frame: &Frame<'_, N>,
    func: &FuncDecl,
) -> Result<Vec<Instruction>, AllocError>
    ensures { IfOk result (λ code. code.items ≡ framed_code (frame_of (N.looks frame.now.names.now) frame.now.slots.now) (func_of func.now)) }
{
    if in_fragment(frame, func) {
        Ok(body_code(frame, func)?.finish())
    } else {
        Ok(no_code(frame.alloc)?.finish())
    }
}

/// The slots and the code of a function or a method, whatever package it stands in: `names` says what its identifiers come to.
///
/// Code is made of a function that works on values over `int` and `bool` alone: its receiver, which is no pointer, its parameters, its local
/// variables, at most one result without a name, and the value of each expression in it, one inside a constant expression too. Of another one
/// the code is `Outside`. Code ends with `Return 0`.
///
/// The Go specification, "Function declarations", "Statements", "Expressions".
///
/// # Errors
///
/// `AllocError` where memory is wanting.
pub fn function_code<N: CodeNames>(
    alloc: Global,
    names: &N,
    func: &FuncDecl,
) -> Result<FunctionParts, AllocError>
    ensures slots { IfOk result (λ f. f.slots ≡ length (slots_of (N.looks names.now) (func_of func.now))) }
    ensures code { IfOk result (λ f. f.code.items ≡ code_of (N.looks names.now) (func_of func.now)) }
{
    let slots = slots_of(alloc, names, func)?;
    let frame = Frame {
        alloc,
        names,
        slots: &slots,
    };
    let code = framed_code(&frame, func)?;
    Ok(FunctionParts {
        slots: slots.len(),
        code,
    })
}
