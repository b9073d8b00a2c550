//! The identifiers that are used, and the calls, in statements.

ghost use Rattle.go_tree_nodes.specs.Shapes as shapes;
ghost use Rattle.go_tree_core.specs.Occurrences as occurrences;

use crate::expr_occurrences::{visit_expr, visit_exprs, visit_value};
use crate::occurrence::Context;
use crate::visitor::Visitor;
use go_tree_nodes::{
    Branch, Expr, Exprs, ForHead, IfHead, InitPart, Line, Otherwise, Simple, Stmt,
};

// Visits the occurrences of a statement that may stand in a header.
fn visit_simple<V: Visitor>(visitor: &mut V, simple: &Simple)
    ensures { V.Sees visitor.old (occurrences.simple_occs (shapes.shape_simple simple.now)) visitor.new }
{
    match simple {
        Simple::Expr(expr) => visit_expr(visitor, Context::Value, expr),
        Simple::Step(expr, _, _) => visit_expr(visitor, Context::Value, expr),
        Simple::Assign(assignment) => {
            visit_exprs(visitor, Context::Target, &assignment.targets);
            visit_exprs(visitor, Context::Value, &assignment.values);
        }
        Simple::Update(update) => {
            visit_expr(visitor, Context::Value, &update.target);
            visit_expr(visitor, Context::Value, &update.value);
        }
        Simple::Define(definition) => visit_exprs(visitor, Context::Value, &definition.values),
    }
}

// Visits the occurrences of such a statement, where one stands.
fn visit_some_simple<V: Visitor>(visitor: &mut V, simple: &Option<Simple>)
    ensures { V.Sees visitor.old (occurrences.some_simple_occs (shapes.shape_some_simple simple.now)) visitor.new }
{
    match simple {
        None => {}
        Some(simple) => visit_simple(visitor, simple),
    }
}

// Visits the occurrences of an expression, where one stands.
fn visit_some_expr<V: Visitor>(visitor: &mut V, expr: &Option<Expr>)
    ensures { V.Sees visitor.old (occurrences.some_expr_occs (shapes.shape_some_expr expr.now)) visitor.new }
{
    match expr {
        None => {}
        Some(expr) => visit_expr(visitor, Context::Value, expr),
    }
}

// Visits the occurrences of expressions, where some stand.
fn visit_some_exprs<V: Visitor>(visitor: &mut V, exprs: &Option<Box<Exprs>>)
    ensures { V.Sees visitor.old (occurrences.some_exprs_occs (shapes.shape_some_exprs exprs.now)) visitor.new }
{
    match exprs {
        None => {}
        Some(exprs) => visit_exprs(visitor, Context::Value, exprs),
    }
}

// Visits the occurrences of what stands before a condition.
fn visit_init<V: Visitor>(visitor: &mut V, init: &Option<InitPart>)
    ensures { V.Sees visitor.old (occurrences.init_occs (shapes.shape_init init.now)) visitor.new }
{
    match init {
        None => {}
        Some(init) => visit_some_simple(visitor, &init.simple),
    }
}

// Visits the occurrences of the head of an `if`.
fn visit_if_head<V: Visitor>(visitor: &mut V, head: &IfHead)
    ensures { V.Sees visitor.old (occurrences.if_occs (shapes.shape_if head.now)) visitor.new }
{
    visit_init(visitor, &head.init);
    visit_expr(visitor, Context::Value, &head.condition);
}

// Visits the occurrences of the head of a `for`.
fn visit_for_head<V: Visitor>(visitor: &mut V, head: &ForHead)
    ensures { V.Sees visitor.old (occurrences.for_occs (shapes.shape_for head.now)) visitor.new }
{
    match head {
        ForHead::Forever => {}
        ForHead::While(condition) => visit_expr(visitor, Context::Value, condition),
        ForHead::Clauses(init, _, condition, _, post) => {
            visit_some_simple(visitor, init);
            visit_some_expr(visitor, condition);
            visit_some_simple(visitor, post);
        }
    }
}

// Visits the occurrences of a statement.
#[cycle(visit)]
fn visit_stmt<V: Visitor>(visitor: &mut V, stmt: &Stmt)
    ensures { V.Sees visitor.old (occurrences.stmt_occs (shapes.shape_stmt stmt.now)) visitor.new }
{
    match stmt {
        Stmt::Empty => {}
        Stmt::Declare(value) => visit_value(visitor, value),
        Stmt::Simple(simple) => visit_simple(visitor, simple),
        Stmt::Return(_, exprs) => visit_some_exprs(visitor, exprs),
        Stmt::Break(_) => {}
        Stmt::Continue(_) => {}
        Stmt::Block(_, lines, _) => visit_lines(visitor, lines),
        Stmt::If(branch) => visit_branch(visitor, branch),
        Stmt::For(turns) => {
            visit_for_head(visitor, &turns.head);
            visit_lines(visitor, &turns.body);
        }
    }
}

// Visits the occurrences of an `if`.
#[cycle(visit)]
fn visit_branch<V: Visitor>(visitor: &mut V, branch: &Branch)
    ensures { V.Sees visitor.old (occurrences.branch_occs (shapes.shape_branch branch.now)) visitor.new }
{
    visit_if_head(visitor, &branch.head);
    visit_lines(visitor, &branch.then);
    visit_otherwise(visitor, &branch.otherwise);
}

// Visits the occurrences of what stands behind the block of an `if`.
#[cycle(visit)]
fn visit_otherwise<V: Visitor>(visitor: &mut V, otherwise: &Otherwise)
    ensures { V.Sees visitor.old (occurrences.else_occs (shapes.shape_else otherwise.now)) visitor.new }
{
    match otherwise {
        Otherwise::Nothing => {}
        Otherwise::Block(_, _, lines, _) => visit_lines(visitor, lines),
        Otherwise::If(_, branch) => visit_branch(visitor, branch),
    }
}

/// Visits the occurrences of the statements of a block.
#[cycle(visit)]
pub(crate) fn visit_lines<V: Visitor>(visitor: &mut V, lines: &Vec<Line>)
    ensures { V.Sees visitor.old (occurrences.lines_occs (shapes.lines_of lines.now.items)) visitor.new }
{
    for line in lines {
        visit_stmt(visitor, &line.stmt);
    }
}
