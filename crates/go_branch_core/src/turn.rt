//! Statements that are visited in turn, one after the other, with any visitor.
ghost use Rattle.go_tree_nodes.specs.Shapes.{shape_value_specs, shape_value, shape_some_simple, shape_some_expr, shape_init, shape_if, shape_for, shape_stmt, shape_loop, shape_branch, shape_else, lines_of};
ghost use Rattle.go_local_core.specs.Outline.{specs_steps, some_simple_steps, init_steps, some_condition_steps, if_steps, for_steps, stmt_steps, branch_steps, else_steps, lines_steps};

use go_local_core::walks::{Visitor, visit_lines};
use go_tree_nodes::{
    Branch, Expr, ForHead, IfHead, InitPart, Line, Loop, Otherwise, Simple, Stmt, ValueDecl,
    ValueSpecs,
};

// Visits a declaration of constants or variables.
fn visit_value<V: Visitor>(visitor: &mut V, value: &ValueDecl)
    ensures { V.Leads visitor.old (λ rest. specs_steps value.now.kind (shape_value_specs value.now.specs) rest) visitor.new }
{
    match &value.specs {
        ValueSpecs::One(spec) => visitor.visit_spec(value.kind, spec),
        ValueSpecs::Group(_, lines, _) => {
            for line in lines {
                visitor.visit_spec(value.kind, &line.spec);
            }
        }
    }
}

fn visit_some_simple<V: Visitor>(visitor: &mut V, simple: &Option<Simple>)
    ensures { V.Leads visitor.old (λ rest. some_simple_steps (shape_some_simple simple.now) rest) visitor.new }
{
    match simple {
        None => {}
        Some(simple) => visitor.visit_simple(simple),
    }
}

fn visit_init<V: Visitor>(visitor: &mut V, init: &Option<InitPart>)
    ensures { V.Leads visitor.old (λ rest. init_steps (shape_init init.now) rest) visitor.new }
{
    match init {
        None => {}
        Some(part) => visit_some_simple(visitor, &part.simple),
    }
}

fn visit_some_condition<V: Visitor>(visitor: &mut V, condition: &Option<Expr>)
    ensures { V.Leads visitor.old (λ rest. some_condition_steps (shape_some_expr condition.now) rest) visitor.new }
{
    match condition {
        None => {}
        Some(condition) => visitor.visit_condition(condition),
    }
}

/// Visits the steps of the head of an `if`.
pub(crate) fn visit_if_head<V: Visitor>(visitor: &mut V, head: &IfHead)
    ensures { V.Leads visitor.old (λ rest. if_steps (shape_if head.now) rest) visitor.new }
{
    visit_init(visitor, &head.init);
    visitor.visit_condition(&head.condition);
}

/// Visits the steps of the head of a `for`.
pub(crate) fn visit_for_head<V: Visitor>(visitor: &mut V, head: &ForHead)
    ensures { V.Leads visitor.old (λ rest. for_steps (shape_for head.now) rest) visitor.new }
{
    match head {
        ForHead::Forever => {}
        ForHead::While(condition) => visitor.visit_condition(condition),
        ForHead::Clauses(init, _, test, _, post) => {
            visit_some_simple(visitor, init);
            visit_some_condition(visitor, test);
            visit_some_simple(visitor, post);
        }
    }
}

/// Visits the steps of a statement.
pub(crate) fn visit_stmt<V: Visitor>(visitor: &mut V, stmt: &Stmt)
    ensures { V.Leads visitor.old (λ rest. stmt_steps (shape_stmt stmt.now) rest) visitor.new }
{
    match stmt {
        Stmt::Empty => {}
        Stmt::Declare(value) => visit_value(visitor, value),
        Stmt::Simple(simple) => visitor.visit_simple(simple),
        Stmt::Return(place, exprs) => visitor.visit_given(*place, exprs),
        Stmt::Break(_) => {}
        Stmt::Continue(_) => {}
        Stmt::Block(_, lines, _) => {
            visitor.enter();
            visit_lines(visitor, lines);
            visitor.leave();
        }
        Stmt::If(branch) => visit_branch(visitor, branch),
        Stmt::For(turns) => visit_loop(visitor, turns),
    }
}

// Visits the steps of a `for`.
fn visit_loop<V: Visitor>(visitor: &mut V, turns: &Loop)
    ensures { V.Leads visitor.old (λ rest. stmt_steps (shape_loop turns.now) rest) visitor.new }
{
    visitor.enter();
    visit_for_head(visitor, &turns.head);
    visitor.enter();
    visit_lines(visitor, &turns.body);
    visitor.leave();
    visitor.leave();
}

// Visits the steps of an `if`.
#[cycle(visit)]
fn visit_branch<V: Visitor>(visitor: &mut V, branch: &Branch)
    ensures { V.Leads visitor.old (λ rest. branch_steps (shape_branch branch.now) rest) visitor.new }
{
    visitor.enter();
    visit_if_head(visitor, &branch.head);
    visitor.enter();
    visit_lines(visitor, &branch.then);
    visitor.leave();
    visit_otherwise(visitor, &branch.otherwise);
    visitor.leave();
}

/// Visits the steps of what stands behind the block of an `if`.
#[cycle(visit)]
pub(crate) fn visit_otherwise<V: Visitor>(visitor: &mut V, otherwise: &Otherwise)
    ensures { V.Leads visitor.old (λ rest. else_steps (shape_else otherwise.now) rest) visitor.new }
{
    match otherwise {
        Otherwise::Nothing => {}
        Otherwise::Block(_, _, lines, _) => {
            visitor.enter();
            visit_lines(visitor, lines);
            visitor.leave();
        }
        Otherwise::If(_, branch) => visit_branch(visitor, branch),
    }
}

/// Visits the steps of statements that follow one another.
pub(crate) fn visit_run<V: Visitor>(visitor: &mut V, lines: &[Line])
    ensures { V.Leads visitor.old (λ rest. lines_steps (lines_of lines.now) rest) visitor.new }
{
    for line in lines {
        visit_stmt(visitor, &line.stmt);
    }
}
