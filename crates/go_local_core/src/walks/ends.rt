//! Which statements end a function, and where `break` and `continue` may not stand.
ghost use Rattle.std.specs.Prelude.{◌≡◌, ◌++◌, OnOk, true};
ghost use Rattle.go_tree_nodes.specs.Shapes.{shape_stmt, shape_branch, shape_else, shape_loop, lines_of};
ghost use Rattle.go_local_core.specs.walks.Ends.{has_break, branch_has_break, else_has_break, lines_have_break, loop_fault, loop_faults, branch_loop_faults, else_loop_faults, lines_loop_faults};

use crate::Fault;
use go_tree_nodes::text_core::{Rule, Span};
use go_tree_nodes::{Branch, Line, Loop, Otherwise, Stmt};
use std::alloc::AllocError;

// A `break` that ends the nearest `for` around this statement.
#[cycle(breaks)]
fn has_break(stmt: &Stmt) -> bool
    ensures { result ≡ has_break (shape_stmt stmt.now) }
{
    match stmt {
        Stmt::Empty | Stmt::Declare(_) | Stmt::Simple(_) | Stmt::Return(_, _) | Stmt::Continue(_) =>
            return false,
        Stmt::For(_) => return false,
        Stmt::Break(_) => return true,
        Stmt::Block(_, lines, _) => return lines_have_break(lines),
        Stmt::If(branch) => return branch_has_break(branch),
    }
}

#[cycle(breaks)]
fn branch_has_break(branch: &Branch) -> bool
    ensures { result ≡ branch_has_break (shape_branch branch.now) }
{
    lines_have_break(&branch.then) || else_has_break(&branch.otherwise)
}

#[cycle(breaks)]
fn else_has_break(otherwise: &Otherwise) -> bool
    ensures { result ≡ else_has_break (shape_else otherwise.now) }
{
    match otherwise {
        Otherwise::Nothing => return false,
        Otherwise::Block(_, _, lines, _) => return lines_have_break(lines),
        Otherwise::If(_, branch) => return branch_has_break(branch),
    }
}

#[cycle(breaks)]
pub fn lines_have_break(lines: &Vec<Line>) -> bool
    ensures { result ≡ lines_have_break (lines_of lines.now.items) }
{
    for line in lines {
        if has_break(&line.stmt) {
            return true;
        }
    }
    false
}

fn note_outside(faults: &mut Vec<Fault>, in_loop: bool, span: Span) -> Result<(), AllocError>
    ensures { OnOk result (faults.new.items ≡ faults.old.items ++ loop_fault in_loop span) }
{
    if !in_loop {
        faults.push(Fault {
            offset: span.start as usize,
            rule: Rule::Y6,
        })?;
    }
    Ok(())
}

// `break` and `continue` outside a `for`.
#[cycle(loops)]
fn loop_faults(faults: &mut Vec<Fault>, in_loop: bool, stmt: &Stmt) -> Result<(), AllocError>
    ensures { OnOk result (faults.new.items ≡ faults.old.items ++ loop_faults in_loop (shape_stmt stmt.now)) }
{
    match stmt {
        Stmt::Empty | Stmt::Declare(_) | Stmt::Simple(_) | Stmt::Return(_, _) => return Ok(()),
        Stmt::Break(span) => return note_outside(faults, in_loop, *span),
        Stmt::Continue(span) => return note_outside(faults, in_loop, *span),
        Stmt::Block(_, lines, _) => return lines_loop_faults(faults, in_loop, lines),
        Stmt::If(branch) => return branch_loop_faults(faults, in_loop, branch),
        Stmt::For(turns) => return body_loop_faults(faults, in_loop, turns),
    }
}

// In the block of a `for` they may stand, wherever that stands.
#[cycle(loops)]
fn body_loop_faults(faults: &mut Vec<Fault>, in_loop: bool, turns: &Loop) -> Result<(), AllocError>
    ensures { OnOk result (faults.new.items ≡ faults.old.items ++ loop_faults in_loop (shape_loop turns.now)) }
{
    lines_loop_faults(faults, true, &turns.body)
}

#[cycle(loops)]
fn branch_loop_faults(
    faults: &mut Vec<Fault>,
    in_loop: bool,
    branch: &Branch,
) -> Result<(), AllocError>
    ensures { OnOk result (faults.new.items ≡ faults.old.items ++ branch_loop_faults in_loop (shape_branch branch.now)) }
{
    lines_loop_faults(faults, in_loop, &branch.then)?;
    else_loop_faults(faults, in_loop, &branch.otherwise)
}

#[cycle(loops)]
fn else_loop_faults(
    faults: &mut Vec<Fault>,
    in_loop: bool,
    otherwise: &Otherwise,
) -> Result<(), AllocError>
    ensures { OnOk result (faults.new.items ≡ faults.old.items ++ else_loop_faults in_loop (shape_else otherwise.now)) }
{
    match otherwise {
        Otherwise::Nothing => return Ok(()),
        Otherwise::Block(_, _, lines, _) => return lines_loop_faults(faults, in_loop, lines),
        Otherwise::If(_, branch) => return branch_loop_faults(faults, in_loop, branch),
    }
}

/// `break` and `continue` outside a `for`.
#[cycle(loops)]
pub fn lines_loop_faults(
    faults: &mut Vec<Fault>,
    in_loop: bool,
    lines: &Vec<Line>,
) -> Result<(), AllocError>
    ensures { OnOk result (faults.new.items ≡ faults.old.items ++ lines_loop_faults in_loop (lines_of lines.now.items)) }
{
    for line in lines {
        loop_faults(faults, in_loop, &line.stmt)?;
    }
    Ok(())
}
