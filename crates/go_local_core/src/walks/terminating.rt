//! Which statements end a function.
ghost use Rattle.std.specs.Prelude.{◌≡◌, Bool};
ghost use Rattle.go_tree_nodes.specs.Trees.{ExprTree};
ghost use Rattle.go_tree_nodes.specs.Shapes.{shape, shape_simple, shape_for, shape_stmt, shape_loop, shape_branch, shape_else, lines_of};
ghost use Rattle.go_tree_nodes.specs.Counts.{is_empty};
ghost use Rattle.go_local_core.specs.walks.Ends.{is_blank_target, has_no_condition, is_panic, is_terminating, is_branch_terminating, is_else_terminating, are_terminating};

use crate::walks::ends::lines_have_break;
use go_tree_nodes::{Branch, Expr, ForHead, Line, Loop, Otherwise, Simple, Stmt};

/// Which expressions are calls of `panic`.
pub trait Panics {
    // whether an expression is one
    ghost panics: { Self → ExprTree → Bool };

    /// Whether an expression is one.
    fn panics(&self, expr: &Expr) -> bool
        ensures { result ≡ panics self.now (shape expr.now) };
}

fn is_panic<P: Panics>(calls: &P, simple: &Simple) -> bool
    ensures { result ≡ is_panic (P.panics calls.now) (shape_simple simple.now) }
{
    match simple {
        Simple::Expr(expr) => return calls.panics(expr),
        Simple::Step(_, _, _) | Simple::Assign(_) | Simple::Update(_) | Simple::Define(_) =>
            return false,
    }
}

fn has_no_condition(head: &ForHead) -> bool
    ensures { result ≡ has_no_condition (shape_for head.now) }
{
    match head {
        ForHead::Forever => return true,
        ForHead::While(_) => return false,
        ForHead::Clauses(_, _, None, _, _) => return true,
        ForHead::Clauses(_, _, Some(_), _, _) => return false,
    }
}

fn is_empty(stmt: &Stmt) -> bool
    ensures { result ≡ is_empty (shape_stmt stmt.now) }
{
    match stmt {
        Stmt::Empty => return true,
        Stmt::Declare(_)
        | Stmt::Simple(_)
        | Stmt::Return(_, _)
        | Stmt::Break(_)
        | Stmt::Continue(_)
        | Stmt::Block(_, _, _)
        | Stmt::If(_) => return false,
        Stmt::For(_) => return false,
    }
}

#[cycle(terminating)]
fn is_terminating<P: Panics>(calls: &P, stmt: &Stmt) -> bool
    ensures { result ≡ is_terminating (P.panics calls.now) (shape_stmt stmt.now) }
{
    match stmt {
        Stmt::Empty | Stmt::Declare(_) | Stmt::Break(_) | Stmt::Continue(_) => return false,
        Stmt::Simple(simple) => return is_panic(calls, simple),
        Stmt::Return(_, _) => return true,
        Stmt::Block(_, lines, _) => return are_terminating(calls, lines),
        Stmt::If(branch) => return is_branch_terminating(calls, branch),
        Stmt::For(turns) => return is_endless(turns),
    }
}

// Whether a `for` has no condition and no `break` of its own.
fn is_endless(turns: &Loop) -> bool
    ensures { (panics : ExprTree → Bool) → result ≡ is_terminating panics (shape_loop turns.now) }
{
    has_no_condition(&turns.head) && !lines_have_break(&turns.body)
}

#[cycle(terminating)]
fn is_branch_terminating<P: Panics>(calls: &P, branch: &Branch) -> bool
    ensures { result ≡ is_branch_terminating (P.panics calls.now) (shape_branch branch.now) }
{
    are_terminating(calls, &branch.then) && is_else_terminating(calls, &branch.otherwise)
}

#[cycle(terminating)]
fn is_else_terminating<P: Panics>(calls: &P, otherwise: &Otherwise) -> bool
    ensures { result ≡ is_else_terminating (P.panics calls.now) (shape_else otherwise.now) }
{
    match otherwise {
        Otherwise::Nothing => return false,
        Otherwise::Block(_, _, lines, _) => return are_terminating(calls, lines),
        Otherwise::If(_, branch) => return is_branch_terminating(calls, branch),
    }
}

/// Whether the last statement that is not empty is a terminating one.
#[cycle(terminating)]
pub fn are_terminating<P: Panics>(calls: &P, lines: &Vec<Line>) -> bool
    ensures { result ≡ are_terminating (P.panics calls.now) (lines_of lines.now.items) }
{
    let mut ends = false;
    for line in lines {
        if !is_empty(&line.stmt) {
            ends = is_terminating(calls, &line.stmt);
        }
    }
    ends
}

/// A target of `=` that is no operand: `_`, in parentheses too.
pub fn is_blank_target(target: &Expr) -> bool
    ensures { result ≡ is_blank_target (shape target.now) }
{
    match target {
        Expr::Name(ident) => ident.name.as_str() == "_",
        Expr::Paren(_, inner, _) => is_blank_target(inner),
        Expr::Integer(_, _) => false,
        Expr::Text(_) => false,
        Expr::Unary(_, _, _) => false,
        Expr::Binary(_) => false,
        Expr::Select(_) => false,
        Expr::Call(_) => false,
        Expr::Literal(_) => false,
        Expr::StructLiteral(_) => false,
    }
}
