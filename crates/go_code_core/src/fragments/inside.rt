//! The statements and functions of which code is made.
ghost use Rattle.std.specs.Prelude.{◌≡◌};
ghost use Rattle.go_tree_nodes.specs.Shapes.{shape_exprs, shape_for, shape_init, shape_simple, shape_some_expr, shape_some_exprs, shape_some_simple, shape_stmt, shape_branch, shape_else, shape_loop, shape_value, shape_value_spec, shape_values, lines_of, func_of};
ghost use Rattle.go_tree_nodes.specs.TypeShapes.{params_of, shape_idents, shape_results, shape_signature};
ghost use Rattle.go_code_core.specs.fragments.Inside.{branch_inside, else_inside, head_inside, in_fragment, init_inside, lines_inside, listed_result_inside, names_inside, one_declared, is_one_name, one_target, one_value, params_inside, receiver_inside, results_given, results_inside, signature_inside, simple_inside, some_simple_inside, stmt_inside, test_inside, value_spec_inside, value_specs_inside, values_inside};
ghost use Rattle.go_code_core.specs.fragments.Names.{frame_of};

use crate::fragments::fragment::{
    expr_gives, is_one, is_other, some_type_inside, type_name_word, type_word,
};
use crate::fragments::names::{CodeNames, Frame};
use crate::fragments::operators::{step_operator, update_operator};
use crate::fragments::targets::{declared_target, is_slot, is_target, target_of};
use go_tree_nodes::{
    Branch, Expr, Exprs, ForHead, FuncDecl, Idents, InitPart, Line, Loop, Otherwise, Param,
    Receiver, Results, Signature, Simple, Stmt, ValueDecl, ValueKind, ValueSpec, ValueSpecs,
    Values,
};

fn one_value<N: CodeNames>(frame: &Frame<'_, N>, exprs: &Exprs) -> bool
    ensures { result ≡ one_value (frame_of (N.looks frame.now.names.now) frame.now.slots.now) (shape_exprs exprs.now) }
{
    match exprs.more.as_slice() {
        [] => is_one(expr_gives(frame, &exprs.first)),
        _ => false,
    }
}

fn one_target<N: CodeNames>(frame: &Frame<'_, N>, targets: &Exprs) -> bool
    ensures { result ≡ one_target (frame_of (N.looks frame.now.names.now) frame.now.slots.now) (shape_exprs targets.now) }
{
    match targets.more.as_slice() {
        [] => is_target(target_of(frame, &targets.first)),
        _ => false,
    }
}

fn one_declared<N: CodeNames>(frame: &Frame<'_, N>, names: &Idents) -> bool
    ensures { result ≡ one_declared (frame_of (N.looks frame.now.names.now) frame.now.slots.now) (shape_idents names.now) }
{
    match names.more.as_slice() {
        [] => is_target(declared_target(frame, &names.first)),
        _ => false,
    }
}

fn one_name(names: &Idents) -> bool
    ensures { result ≡ is_one_name (shape_idents names.now) }
{
    match names.more.as_slice() {
        [] => true,
        _ => false,
    }
}

fn simple_inside<N: CodeNames>(frame: &Frame<'_, N>, simple: &Simple) -> bool
    ensures { result ≡ simple_inside (frame_of (N.looks frame.now.names.now) frame.now.slots.now) (shape_simple simple.now) }
{
    match simple {
        Simple::Expr(expr) => !is_other(expr_gives(frame, expr)),
        Simple::Step(target, operator, _) => is_slot(target_of(frame, target))
            && step_operator(*operator).is_some(),
        Simple::Assign(assignment) => one_target(frame, &assignment.targets)
            && one_value(frame, &assignment.values),
        Simple::Update(update) => {
            is_slot(target_of(frame, &update.target))
                && is_one(expr_gives(frame, &update.value))
                && update_operator(update.operator).is_some()
        }
        Simple::Define(definition) => one_declared(frame, &definition.names)
            && one_value(frame, &definition.values),
    }
}

fn values_inside<N: CodeNames>(frame: &Frame<'_, N>, values: &Option<Values>) -> bool
    ensures { result ≡ values_inside (frame_of (N.looks frame.now.names.now) frame.now.slots.now) (shape_values values.now) }
{
    match values {
        Some(values) => one_value(frame, &values.exprs),
        None => true,
    }
}

fn names_inside<N: CodeNames>(frame: &Frame<'_, N>, kind: ValueKind, names: &Idents) -> bool
    ensures { result ≡ names_inside (frame_of (N.looks frame.now.names.now) frame.now.slots.now) kind (shape_idents names.now) }
{
    match kind {
        ValueKind::Const => one_name(names),
        ValueKind::Var => one_declared(frame, names),
    }
}

fn value_spec_inside<N: CodeNames>(frame: &Frame<'_, N>, kind: ValueKind, spec: &ValueSpec) -> bool
    ensures { result ≡ value_spec_inside (frame_of (N.looks frame.now.names.now) frame.now.slots.now) kind (shape_value_spec spec.now) }
{
    names_inside(frame, kind, &spec.names)
        && some_type_inside(frame.names, &spec.type_expr)
        && values_inside(frame, &spec.values)
}

fn declaration_inside<N: CodeNames>(frame: &Frame<'_, N>, decl: &ValueDecl) -> bool
    ensures { result ≡ value_specs_inside (frame_of (N.looks frame.now.names.now) frame.now.slots.now) (shape_value decl.now).kind (shape_value decl.now).specs }
{
    match &decl.specs {
        ValueSpecs::One(spec) => value_spec_inside(frame, decl.kind, spec),
        ValueSpecs::Group(_, lines, _) => {
            for line in lines {
                if !value_spec_inside(frame, decl.kind, &line.spec) {
                    return false;
                }
            }
            true
        }
    }
}

fn some_simple_inside<N: CodeNames>(frame: &Frame<'_, N>, simple: &Option<Simple>) -> bool
    ensures { result ≡ some_simple_inside (frame_of (N.looks frame.now.names.now) frame.now.slots.now) (shape_some_simple simple.now) }
{
    match simple {
        Some(simple) => simple_inside(frame, simple),
        None => true,
    }
}

fn init_inside<N: CodeNames>(frame: &Frame<'_, N>, init: &Option<InitPart>) -> bool
    ensures { result ≡ init_inside (frame_of (N.looks frame.now.names.now) frame.now.slots.now) (shape_init init.now) }
{
    match init {
        Some(init) => some_simple_inside(frame, &init.simple),
        None => true,
    }
}

fn test_inside<N: CodeNames>(frame: &Frame<'_, N>, test: &Option<Expr>) -> bool
    ensures { result ≡ test_inside (frame_of (N.looks frame.now.names.now) frame.now.slots.now) (shape_some_expr test.now) }
{
    match test {
        Some(test) => is_one(expr_gives(frame, test)),
        None => true,
    }
}

fn results_given<N: CodeNames>(frame: &Frame<'_, N>, results: &Option<Box<Exprs>>) -> bool
    ensures { result ≡ results_given (frame_of (N.looks frame.now.names.now) frame.now.slots.now) (shape_some_exprs results.now) }
{
    match results {
        Some(results) => one_value(frame, results),
        None => true,
    }
}

fn head_inside<N: CodeNames>(frame: &Frame<'_, N>, head: &ForHead) -> bool
    ensures { result ≡ head_inside (frame_of (N.looks frame.now.names.now) frame.now.slots.now) (shape_for head.now) }
{
    match head {
        ForHead::Forever => true,
        ForHead::While(test) => is_one(expr_gives(frame, test)),
        ForHead::Clauses(init, _, test, _, post) => {
            some_simple_inside(frame, init)
                && test_inside(frame, test)
                && some_simple_inside(frame, post)
        }
    }
}

#[cycle(inside)]
fn stmt_inside<N: CodeNames>(frame: &Frame<'_, N>, stmt: &Stmt) -> bool
    ensures { result ≡ stmt_inside (frame_of (N.looks frame.now.names.now) frame.now.slots.now) (shape_stmt stmt.now) }
{
    match stmt {
        Stmt::Empty | Stmt::Break(_) | Stmt::Continue(_) => return true,
        Stmt::Declare(decl) => return declaration_inside(frame, decl),
        Stmt::Simple(simple) => return simple_inside(frame, simple),
        Stmt::Return(_, results) => return results_given(frame, results),
        Stmt::Block(_, lines, _) => return lines_inside(frame, lines),
        Stmt::If(branch) => return branch_inside(frame, branch),
        Stmt::For(turns) => return loop_inside(frame, turns),
    }
}

#[cycle(inside)]
fn loop_inside<N: CodeNames>(frame: &Frame<'_, N>, turns: &Loop) -> bool
    ensures { result ≡ stmt_inside (frame_of (N.looks frame.now.names.now) frame.now.slots.now) (shape_loop turns.now) }
{
    head_inside(frame, &turns.head) && lines_inside(frame, &turns.body)
}

#[cycle(inside)]
fn branch_inside<N: CodeNames>(frame: &Frame<'_, N>, branch: &Branch) -> bool
    ensures { result ≡ branch_inside (frame_of (N.looks frame.now.names.now) frame.now.slots.now) (shape_branch branch.now) }
{
    init_inside(frame, &branch.head.init)
        && is_one(expr_gives(frame, &branch.head.condition))
        && lines_inside(frame, &branch.then)
        && else_inside(frame, &branch.otherwise)
}

#[cycle(inside)]
fn else_inside<N: CodeNames>(frame: &Frame<'_, N>, otherwise: &Otherwise) -> bool
    ensures { result ≡ else_inside (frame_of (N.looks frame.now.names.now) frame.now.slots.now) (shape_else otherwise.now) }
{
    match otherwise {
        Otherwise::Nothing => return true,
        Otherwise::Block(_, _, lines, _) => return lines_inside(frame, lines),
        Otherwise::If(_, branch) => return branch_inside(frame, branch),
    }
}

#[cycle(inside)]
fn lines_inside<N: CodeNames>(frame: &Frame<'_, N>, lines: &Vec<Line>) -> bool
    ensures { result ≡ lines_inside (frame_of (N.looks frame.now.names.now) frame.now.slots.now) (lines_of lines.now.items) }
{
    for line in lines {
        if !stmt_inside(frame, &line.stmt) {
            return false;
        }
    }
    true
}

// A value receiver over `int` or `bool`.
fn receiver_inside<N: CodeNames>(names: &N, receiver: &Option<Receiver>) -> bool
    ensures { result ≡ receiver_inside (N.looks names.now) receiver.now }
{
    match receiver {
        Some(receiver) => receiver.star.is_none()
            && type_name_word(names, &receiver.base).is_some(),
        None => true,
    }
}

fn params_inside<N: CodeNames>(names: &N, params: &Vec<Param>) -> bool
    ensures { result ≡ params_inside (N.looks names.now) (params_of params.now.items) }
{
    for param in params {
        if type_word(names, &param.type_expr).is_none() {
            return false;
        }
    }
    true
}

// No result, or one without a name.
fn listed_result_inside<N: CodeNames>(names: &N, params: &Vec<Param>) -> bool
    ensures { result ≡ listed_result_inside (N.looks names.now) (params_of params.now.items) }
{
    match params.as_slice() {
        [] => true,
        [param] => param.names.is_none() && type_word(names, &param.type_expr).is_some(),
        _ => false,
    }
}

fn results_inside<N: CodeNames>(names: &N, results: &Results) -> bool
    ensures { result ≡ results_inside (N.looks names.now) (shape_results results.now) }
{
    match results {
        Results::Nothing => true,
        Results::Single(type_expr) => type_word(names, type_expr).is_some(),
        Results::Listed(params) => listed_result_inside(names, &params.entries),
    }
}

fn signature_inside<N: CodeNames>(names: &N, signature: &Signature) -> bool
    ensures { result ≡ signature_inside (N.looks names.now) (shape_signature signature.now) }
{
    params_inside(names, &signature.params.entries) && results_inside(names, &signature.results)
}

/// Whether code is made of a function: of one that works on values over `int` and `bool` alone. Such are its receiver, which is no pointer,
/// its parameters, its local variables, at most one result without a name, and the value of each expression in it, one inside a constant
/// expression too.
///
/// The Go specification, "Function declarations", "Method declarations", "Statements".
pub fn in_fragment<N: CodeNames>(frame: &Frame<'_, N>, func: &FuncDecl) -> bool
    ensures { result ≡ in_fragment (frame_of (N.looks frame.now.names.now) frame.now.slots.now) (func_of func.now) }
{
    receiver_inside(frame.names, &func.receiver)
        && signature_inside(frame.names, &func.signature)
        && lines_inside(frame, &func.body)
}
