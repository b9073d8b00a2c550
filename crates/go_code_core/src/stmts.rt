//! The code of statements.
ghost use Rattle.std.specs.Prelude.{◌≡◌, ◌≤◌, ◌-◌, ◌++◌, length, Some, IfOk, OnOk};
ghost use Rattle.go_tree_nodes.specs.Shapes.{shape, shape_for, shape_some_exprs, shape_stmt, shape_branch, shape_else, shape_loop, lines_of};
ghost use Rattle.go_code_core.specs.Code.{Exits, branch_code, head_init, head_post, head_test, jump, lines_code, returned_code, some_simple_code, stmt_code, test_code};
ghost use Rattle.go_code_core.specs.fragments.Names.{frame_of};
ghost use Rattle.go_code_core.specs.mirrors.Written.{IsMarked, else_code, exits_at};

use crate::code::Code;
use crate::exprs::expr;
use crate::fragments::{CodeNames, Frame};
use crate::simples::{declaration, init, one, simple, some_simple};
use go_object_core::instructions::{Distance, Instruction};
use go_tree_nodes::{Branch, Expr, Exprs, ForHead, Line, Loop, Otherwise, Stmt};
use std::alloc::AllocError;

/// Where `break` and `continue` lead: how many instructions stand from there on.
#[derive(Clone, Copy)]
pub(crate) struct Marks {
    pub ends: usize,
    pub goes_on: usize,
}

// A jump to where so many instructions stand.
fn jump(code: &mut Code, mark: usize) -> Result<(), AllocError>
    requires { mark ≤ length code.old }
    ensures { OnOk result (code.new ≡ jump (length code.old - mark) ++ code.old) }
{
    let distance = code.len() - mark;
    code.put(Instruction::Jump(Distance::Forward(distance)))
}

// A test, and a jump to where so many instructions stand, where it fails.
fn test<N: CodeNames>(
    code: &mut Code,
    frame: &Frame<'_, N>,
    condition: &Expr,
    mark: usize,
) -> Result<(), AllocError>
    requires { mark ≤ length code.old }
    ensures { OnOk result (code.new ≡ test_code (frame_of (N.looks frame.now.names.now) frame.now.slots.now) (Some (shape condition.now)) (length code.old - mark) ++ code.old) }
{
    let distance = code.len() - mark;
    code.put(Instruction::JumpFalse(distance))?;
    expr(code, frame, condition)
}

// The end of a function, with its result where it has one.
fn leave<N: CodeNames>(
    code: &mut Code,
    frame: &Frame<'_, N>,
    results: &Option<Box<Exprs>>,
) -> Result<(), AllocError>
    ensures { OnOk result (code.new ≡ returned_code (frame_of (N.looks frame.now.names.now) frame.now.slots.now) (shape_some_exprs results.now) ++ code.old) }
{
    match results {
        Some(results) => {
            code.put(Instruction::Return(true))?;
            one(code, frame, results)
        }
        None => code.put(Instruction::Return(false)),
    }
}

// What stands in front of the test of a `for`.
fn loop_init<N: CodeNames>(
    code: &mut Code,
    frame: &Frame<'_, N>,
    head: &ForHead,
) -> Result<(), AllocError>
    ensures { OnOk result (code.new ≡ some_simple_code (frame_of (N.looks frame.now.names.now) frame.now.slots.now) (head_init (shape_for head.now)) ++ code.old) }
{
    match head {
        ForHead::Clauses(init, _, _, _, _) => some_simple(code, frame, init),
        ForHead::Forever | ForHead::While(_) => Ok(()),
    }
}

// The test of a `for`.
fn loop_test<N: CodeNames>(
    code: &mut Code,
    frame: &Frame<'_, N>,
    head: &ForHead,
    mark: usize,
) -> Result<(), AllocError>
    requires { mark ≤ length code.old }
    ensures { OnOk result (code.new ≡ test_code (frame_of (N.looks frame.now.names.now) frame.now.slots.now) (head_test (shape_for head.now)) (length code.old - mark) ++ code.old) }
{
    match head {
        ForHead::While(condition) => test(code, frame, condition, mark),
        ForHead::Clauses(_, _, Some(condition), _, _) => test(code, frame, condition, mark),
        ForHead::Clauses(_, _, None, _, _) => Ok(()),
        ForHead::Forever => Ok(()),
    }
}

// What stands behind the body of a `for`.
fn loop_post<N: CodeNames>(
    code: &mut Code,
    frame: &Frame<'_, N>,
    head: &ForHead,
) -> Result<(), AllocError>
    ensures { OnOk result (code.new ≡ some_simple_code (frame_of (N.looks frame.now.names.now) frame.now.slots.now) (head_post (shape_for head.now)) ++ code.old) }
{
    match head {
        ForHead::Clauses(_, _, _, _, post) => some_simple(code, frame, post),
        ForHead::Forever | ForHead::While(_) => Ok(()),
    }
}

// A statement, where `break` and `continue` lead to these marks.
#[cycle(stmt)]
fn stmt<N: CodeNames>(
    code: &mut Code,
    frame: &Frame<'_, N>,
    marks: Marks,
    stmt: &Stmt,
) -> Result<(), AllocError>
    requires { IsMarked (length code.old) marks }
    ensures { OnOk result (code.new ≡ stmt_code (frame_of (N.looks frame.now.names.now) frame.now.slots.now) (exits_at (length code.old) marks) (shape_stmt stmt.now) ++ code.old) }
{
    match stmt {
        Stmt::Empty => Ok(()),
        Stmt::Declare(decl) => declaration(code, frame, decl),
        Stmt::Simple(statement) => simple(code, frame, statement),
        Stmt::Return(_, results) => leave(code, frame, results),
        Stmt::Break(_) => jump(code, marks.ends),
        Stmt::Continue(_) => jump(code, marks.goes_on),
        Stmt::Block(_, inner, _) => lines(code, frame, marks, inner),
        Stmt::If(choice) => branch(code, frame, marks, choice),
        Stmt::For(turns) => looped(code, frame, turns),
    }
}

// A `for`.
#[cycle(stmt)]
fn looped<N: CodeNames>(
    code: &mut Code,
    frame: &Frame<'_, N>,
    turns: &Loop,
) -> Result<(), AllocError>
    ensures { OnOk result ((x : Exits) → code.new ≡ stmt_code (frame_of (N.looks frame.now.names.now) frame.now.slots.now) x (shape_loop turns.now) ++ code.old) }
{
    let end = code.len();
    code.put(Instruction::Jump(Distance::Back(0)))?;
    loop_post(code, frame, &turns.head)?;
    let goes_on = code.len();
    lines(code, frame, Marks { ends: end, goes_on }, &turns.body)?;
    loop_test(code, frame, &turns.head, end)?;
    let back = code.len() - end;
    code.turn(end, back);
    loop_init(code, frame, &turns.head)
}

// An `if`.
#[cycle(stmt)]
fn branch<N: CodeNames>(
    code: &mut Code,
    frame: &Frame<'_, N>,
    marks: Marks,
    choice: &Branch,
) -> Result<(), AllocError>
    requires { IsMarked (length code.old) marks }
    ensures { OnOk result (code.new ≡ branch_code (frame_of (N.looks frame.now.names.now) frame.now.slots.now) (exits_at (length code.old) marks) (shape_branch choice.now) ++ code.old) }
{
    let mark = otherwise(code, frame, marks, &choice.otherwise)?;
    lines(code, frame, marks, &choice.then)?;
    test(code, frame, &choice.head.condition, mark)?;
    init(code, frame, &choice.head.init)
}

// What stands behind the block of an `if`, and a jump over it where there is an `else`. Answers how many instructions stand behind that jump.
#[cycle(stmt)]
fn otherwise<N: CodeNames>(
    code: &mut Code,
    frame: &Frame<'_, N>,
    marks: Marks,
    other: &Otherwise,
) -> Result<usize, AllocError>
    requires { IsMarked (length code.old) marks }
    ensures mark { IfOk result (λ mark. mark ≡ length ((else_code (frame_of (N.looks frame.now.names.now) frame.now.slots.now) (exits_at (length code.old) marks) (shape_else other.now)).outside ++ code.old)) }
    ensures code { OnOk result (code.new ≡ (else_code (frame_of (N.looks frame.now.names.now) frame.now.slots.now) (exits_at (length code.old) marks) (shape_else other.now)).over ++ ((else_code (frame_of (N.looks frame.now.names.now) frame.now.slots.now) (exits_at (length code.old) marks) (shape_else other.now)).outside ++ code.old)) }
{
    let end = code.len();
    match other {
        Otherwise::Nothing => Ok(end),
        Otherwise::Block(_, _, inner, _) => {
            lines(code, frame, marks, inner)?;
            let mark = code.len();
            jump(code, end)?;
            Ok(mark)
        }
        Otherwise::If(_, choice) => {
            branch(code, frame, marks, choice)?;
            let mark = code.len();
            jump(code, end)?;
            Ok(mark)
        }
    }
}

/// Statements, where `break` and `continue` lead to these marks.
#[cycle(stmt)]
pub(crate) fn lines<N: CodeNames>(
    code: &mut Code,
    frame: &Frame<'_, N>,
    marks: Marks,
    lines: &Vec<Line>,
) -> Result<(), AllocError>
    requires { IsMarked (length code.old) marks }
    ensures { OnOk result (code.new ≡ lines_code (frame_of (N.looks frame.now.names.now) frame.now.slots.now) (exits_at (length code.old) marks) (lines_of lines.now.items) ++ code.old) }
{
    for at in (0..lines.len()).rev() {
        stmt(code, frame, marks, &lines[at].stmt)?;
    }
    Ok(())
}
