//! The walk of a search through the steps of a function.
ghost use Rattle.go_tree_nodes.specs.Shapes.{shape, shape_some_expr, shape_some_exprs, shape_value_spec, shape_value_specs, shape_simple, shape_some_simple, shape_init, shape_if, shape_for, shape_stmt, shape_loop, shape_branch, shape_else, lines_of};
ghost use Rattle.go_tree_nodes.specs.TypeShapes.{shape_signature};
ghost use Rattle.go_expr_core.specs.local_core.Steps.{Check, Declare, Condition, Given, Header, EachFirst};
ghost use Rattle.go_expr_core.specs.local_core.Outline.{header_idents, spec_steps, specs_steps, simple_steps, some_simple_steps, init_steps, some_condition_steps, if_steps, for_steps, stmt_steps, branch_steps, else_steps, lines_steps};
ghost use Rattle.go_cursor_core.specs.mirrors.Searching.{Leads};

use crate::exprs::in_expr;
use crate::pieces::{in_given, in_header, in_simple, in_spec};
use crate::search::{Search, declare_idents, declare_params, declare_receiver, declare_results};
use go_expr_core::denote_core::Stand;
use go_tree_nodes::text_core::Span;
use go_tree_nodes::{
    Branch, Expr, Exprs, ForHead, FuncDecl, IfHead, InitPart, Line, Loop, Otherwise, Simple, Stmt,
    ValueDecl, ValueKind, ValueSpec, ValueSpecs,
};

/// Passes over the header of a function, and declares its names.
pub(crate) fn pass_header<'t>(func: &'t FuncDecl, search: &mut Search<'t>)
    ensures { Leads search.old (λ rest. Declare EachFirst func.now.open_brace.start (Header func.now.receiver (shape_signature func.now.signature)) (header_idents func.now.receiver (shape_signature func.now.signature)) rest) search.new }
{
    if search.found.is_none() {
        search.found = in_header(func, search.start);
        if search.found.is_none() {
            declare_receiver(&func.receiver, search);
            declare_params(&func.signature.params.entries, search);
            declare_results(&func.signature.results, search);
        }
    }
}

// Passes over a specification, and declares its names.
fn pass_spec<'t>(spec: &'t ValueSpec, kind: ValueKind, search: &mut Search<'t>)
    ensures { Leads search.old (λ rest. spec_steps kind (shape_value_spec spec.now) rest) search.new }
{
    if search.found.is_none() {
        search.found = in_spec(spec, search.start);
        if search.found.is_none() {
            declare_idents(&spec.names, search);
        }
    }
}

// Passes over a statement that may stand in a header, and declares its names.
fn pass_simple<'t>(simple: &'t Simple, search: &mut Search<'t>)
    ensures { Leads search.old (λ rest. simple_steps (shape_simple simple.now) rest) search.new }
{
    if search.found.is_none() {
        search.found = in_simple(simple, search.start);
        if search.found.is_none() {
            if let Simple::Define(definition) = simple {
                declare_idents(&definition.names, search);
            }
        }
    }
}

// Passes over a condition.
fn pass_condition<'t>(condition: &'t Expr, search: &mut Search<'t>)
    ensures { Leads search.old (λ rest. Check (Condition (shape condition.now)) rest) search.new }
{
    if search.found.is_none() {
        search.found = in_expr(condition, search.start, Stand::Value);
    }
}

// Passes over what is returned.
fn pass_given<'t>(values: &'t Option<Box<Exprs>>, place: Span, search: &mut Search<'t>)
    ensures { Leads search.old (λ rest. Check (Given place (shape_some_exprs values.now)) rest) search.new }
{
    if search.found.is_none() {
        search.found = in_given(values, search.start);
    }
}

// Passes over a declaration of constants or variables.
fn pass_value<'t>(value: &'t ValueDecl, search: &mut Search<'t>)
    ensures { Leads search.old (λ rest. specs_steps value.now.kind (shape_value_specs value.now.specs) rest) search.new }
{
    match &value.specs {
        ValueSpecs::One(spec) => pass_spec(spec, value.kind, search),
        ValueSpecs::Group(_, lines, _) => {
            for line in lines {
                pass_spec(&line.spec, value.kind, search);
            }
        }
    }
}

fn pass_some_simple<'t>(simple: &'t Option<Simple>, search: &mut Search<'t>)
    ensures { Leads search.old (λ rest. some_simple_steps (shape_some_simple simple.now) rest) search.new }
{
    match simple {
        None => {}
        Some(simple) => pass_simple(simple, search),
    }
}

fn pass_init<'t>(init: &'t Option<InitPart>, search: &mut Search<'t>)
    ensures { Leads search.old (λ rest. init_steps (shape_init init.now) rest) search.new }
{
    match init {
        None => {}
        Some(part) => pass_some_simple(&part.simple, search),
    }
}

fn pass_some_condition<'t>(condition: &'t Option<Expr>, search: &mut Search<'t>)
    ensures { Leads search.old (λ rest. some_condition_steps (shape_some_expr condition.now) rest) search.new }
{
    match condition {
        None => {}
        Some(condition) => pass_condition(condition, search),
    }
}

fn pass_if_head<'t>(head: &'t IfHead, search: &mut Search<'t>)
    ensures { Leads search.old (λ rest. if_steps (shape_if head.now) rest) search.new }
{
    pass_init(&head.init, search);
    pass_condition(&head.condition, search);
}

fn pass_for_head<'t>(head: &'t ForHead, search: &mut Search<'t>)
    ensures { Leads search.old (λ rest. for_steps (shape_for head.now) rest) search.new }
{
    match head {
        ForHead::Forever => {}
        ForHead::While(condition) => pass_condition(condition, search),
        ForHead::Clauses(init, _, test, _, post) => {
            pass_some_simple(init, search);
            pass_some_condition(test, search);
            pass_some_simple(post, search);
        }
    }
}

// Passes over a statement.
#[cycle(pass)]
fn pass_stmt<'t>(stmt: &'t Stmt, search: &mut Search<'t>)
    ensures { Leads search.old (λ rest. stmt_steps (shape_stmt stmt.now) rest) search.new }
{
    match stmt {
        Stmt::Empty => {}
        Stmt::Declare(value) => pass_value(value, search),
        Stmt::Simple(simple) => pass_simple(simple, search),
        Stmt::Return(place, values) => pass_given(values, *place, search),
        Stmt::Break(_) => {}
        Stmt::Continue(_) => {}
        Stmt::Block(_, lines, _) => {
            let outer = search.enter();
            pass_lines(lines, search);
            search.leave(outer);
        }
        Stmt::If(branch) => pass_branch(branch, search),
        Stmt::For(turns) => pass_loop(turns, search),
    }
}

// Passes over a `for`.
#[cycle(pass)]
fn pass_loop<'t>(turns: &'t Loop, search: &mut Search<'t>)
    ensures { Leads search.old (λ rest. stmt_steps (shape_loop turns.now) rest) search.new }
{
    let outer = search.enter();
    pass_for_head(&turns.head, search);
    let around = search.enter();
    pass_lines(&turns.body, search);
    search.leave(around);
    search.leave(outer);
}

// Passes over an `if`.
#[cycle(pass)]
fn pass_branch<'t>(branch: &'t Branch, search: &mut Search<'t>)
    ensures { Leads search.old (λ rest. branch_steps (shape_branch branch.now) rest) search.new }
{
    let outer = search.enter();
    pass_if_head(&branch.head, search);
    let around = search.enter();
    pass_lines(&branch.then, search);
    search.leave(around);
    pass_otherwise(&branch.otherwise, search);
    search.leave(outer);
}

// Passes over what stands behind the block of an `if`.
#[cycle(pass)]
fn pass_otherwise<'t>(otherwise: &'t Otherwise, search: &mut Search<'t>)
    ensures { Leads search.old (λ rest. else_steps (shape_else otherwise.now) rest) search.new }
{
    match otherwise {
        Otherwise::Nothing => {}
        Otherwise::Block(_, _, lines, _) => {
            let outer = search.enter();
            pass_lines(lines, search);
            search.leave(outer);
        }
        Otherwise::If(_, branch) => pass_branch(branch, search),
    }
}

/// Passes over the statements of a block.
#[cycle(pass)]
pub(crate) fn pass_lines<'t>(lines: &'t Vec<Line>, search: &mut Search<'t>)
    ensures { Leads search.old (λ rest. lines_steps (lines_of lines.now.items) rest) search.new }
{
    for line in lines {
        pass_stmt(&line.stmt, search);
    }
}
