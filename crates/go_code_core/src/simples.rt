//! The code of simple statements and of declarations.
ghost use Rattle.std.specs.Prelude.{◌≡◌, ◌++◌, OnOk};
ghost use Rattle.go_tree_nodes.specs.Shapes.{shape, shape_exprs, shape_simple, shape_some_simple, shape_value, shape_value_spec, shape_values, shape_init};
ghost use Rattle.go_tree_nodes.specs.TypeShapes.{shape_idents};
ghost use Rattle.go_code_core.specs.Code.{declared_code, dropped, expr_code, init_code, initial_code, one_code, simple_code, some_simple_code, store, stored, updated, value_spec_code, value_specs_code};
ghost use Rattle.go_code_core.specs.fragments.Names.{frame_of, slot_assigned};
ghost use Rattle.go_code_core.specs.fragments.Operators.{update_operator};

use crate::code::Code;
use crate::exprs::expr;
use crate::fragments::{
    CodeNames, Frame, Gives, Target, declared_target, expr_gives, step_operator, target_of,
    update_operator,
};
use go_object_core::instructions::Instruction;
use go_tree_nodes::{
    Exprs, Idents, InitPart, Simple, Update, ValueDecl, ValueKind, ValueSpec, ValueSpecs, Values,
};
use std::alloc::AllocError;

// Stores a value.
fn store(code: &mut Code, target: Target) -> Result<(), AllocError>
    ensures { OnOk result (code.new ≡ store target ++ code.old) }
{
    match target {
        Target::Slot(slot) => code.put(Instruction::Store(slot)),
        Target::Blank => code.put(Instruction::Drop),
        Target::Other => Ok(()),
    }
}

// Drops what a statement gives that is an expression.
fn discard(code: &mut Code, gives: Gives) -> Result<(), AllocError>
    ensures { OnOk result (code.new ≡ dropped gives ++ code.old) }
{
    match gives {
        Gives::One(_) => code.put(Instruction::Drop),
        Gives::Nothing | Gives::Other => Ok(()),
    }
}

/// The only expression.
pub(crate) fn one<N: CodeNames>(
    code: &mut Code,
    frame: &Frame<'_, N>,
    exprs: &Exprs,
) -> Result<(), AllocError>
    ensures { OnOk result (code.new ≡ one_code (frame_of (N.looks frame.now.names.now) frame.now.slots.now) (shape_exprs exprs.now) ++ code.old) }
{
    match exprs.more.as_slice() {
        [] => expr(code, frame, &exprs.first),
        _ => Ok(()),
    }
}

// Stores into the only target.
fn store_one<N: CodeNames>(
    code: &mut Code,
    frame: &Frame<'_, N>,
    targets: &Exprs,
) -> Result<(), AllocError>
    ensures { OnOk result (code.new ≡ stored (frame_of (N.looks frame.now.names.now) frame.now.slots.now) (shape_exprs targets.now) ++ code.old) }
{
    match targets.more.as_slice() {
        [] => store(code, target_of(frame, &targets.first)),
        _ => Ok(()),
    }
}

// Stores into the only variable that is declared.
fn store_declared<N: CodeNames>(
    code: &mut Code,
    frame: &Frame<'_, N>,
    names: &Idents,
) -> Result<(), AllocError>
    ensures { OnOk result (code.new ≡ declared_code (frame_of (N.looks frame.now.names.now) frame.now.slots.now) (shape_idents names.now) ++ code.old) }
{
    match names.more.as_slice() {
        [] => store(code, declared_target(frame, &names.first)),
        _ => Ok(()),
    }
}

// A target, an operator with `=`, and a value.
fn update<N: CodeNames>(
    code: &mut Code,
    frame: &Frame<'_, N>,
    update: &Update,
) -> Result<(), AllocError>
    ensures { OnOk result (code.new ≡ updated (slot_assigned (frame_of (N.looks frame.now.names.now) frame.now.slots.now) (shape update.now.target)) (expr_code (frame_of (N.looks frame.now.names.now) frame.now.slots.now) (shape update.now.value)) (update_operator update.now.operator) ++ code.old) }
{
    match target_of(frame, &update.target) {
        Target::Slot(slot) => {
            code.put(Instruction::Store(slot))?;
            code.put_some(update_operator(update.operator))?;
            expr(code, frame, &update.value)?;
            code.put(Instruction::Load(slot))
        }
        Target::Blank | Target::Other => Ok(()),
    }
}

/// A simple statement.
pub(crate) fn simple<N: CodeNames>(
    code: &mut Code,
    frame: &Frame<'_, N>,
    simple: &Simple,
) -> Result<(), AllocError>
    ensures { OnOk result (code.new ≡ simple_code (frame_of (N.looks frame.now.names.now) frame.now.slots.now) (shape_simple simple.now) ++ code.old) }
{
    match simple {
        Simple::Expr(value) => {
            discard(code, expr_gives(frame, value))?;
            expr(code, frame, value)
        }
        Simple::Step(target, operator, _) => match target_of(frame, target) {
            Target::Slot(slot) => {
                code.put(Instruction::Store(slot))?;
                code.put_some(step_operator(*operator))?;
                code.put(Instruction::Push(1))?;
                code.put(Instruction::Load(slot))
            }
            Target::Blank | Target::Other => Ok(()),
        },
        Simple::Assign(assignment) => {
            store_one(code, frame, &assignment.targets)?;
            one(code, frame, &assignment.values)
        }
        Simple::Update(changed) => update(code, frame, changed),
        Simple::Define(definition) => {
            store_declared(code, frame, &definition.names)?;
            one(code, frame, &definition.values)
        }
    }
}

/// A simple statement, where one stands.
pub(crate) fn some_simple<N: CodeNames>(
    code: &mut Code,
    frame: &Frame<'_, N>,
    some: &Option<Simple>,
) -> Result<(), AllocError>
    ensures { OnOk result (code.new ≡ some_simple_code (frame_of (N.looks frame.now.names.now) frame.now.slots.now) (shape_some_simple some.now) ++ code.old) }
{
    match some {
        Some(statement) => simple(code, frame, statement),
        None => Ok(()),
    }
}

/// What stands in front of a condition.
pub(crate) fn init<N: CodeNames>(
    code: &mut Code,
    frame: &Frame<'_, N>,
    init: &Option<InitPart>,
) -> Result<(), AllocError>
    ensures { OnOk result (code.new ≡ init_code (frame_of (N.looks frame.now.names.now) frame.now.slots.now) (shape_init init.now) ++ code.old) }
{
    match init {
        Some(part) => some_simple(code, frame, &part.simple),
        None => Ok(()),
    }
}

// The value of a variable that is declared.
fn initial<N: CodeNames>(
    code: &mut Code,
    frame: &Frame<'_, N>,
    values: &Option<Values>,
) -> Result<(), AllocError>
    ensures { OnOk result (code.new ≡ initial_code (frame_of (N.looks frame.now.names.now) frame.now.slots.now) (shape_values values.now) ++ code.old) }
{
    match values {
        Some(values) => one(code, frame, &values.exprs),
        None => code.put(Instruction::Push(0)),
    }
}

// A specification of constants or variables.
fn value_spec<N: CodeNames>(
    code: &mut Code,
    frame: &Frame<'_, N>,
    kind: ValueKind,
    spec: &ValueSpec,
) -> Result<(), AllocError>
    ensures { OnOk result (code.new ≡ value_spec_code (frame_of (N.looks frame.now.names.now) frame.now.slots.now) kind (shape_value_spec spec.now) ++ code.old) }
{
    match kind {
        ValueKind::Const => Ok(()),
        ValueKind::Var => {
            store_declared(code, frame, &spec.names)?;
            initial(code, frame, &spec.values)
        }
    }
}

/// A declaration of local constants or variables.
pub(crate) fn declaration<N: CodeNames>(
    code: &mut Code,
    frame: &Frame<'_, N>,
    decl: &ValueDecl,
) -> Result<(), AllocError>
    ensures { OnOk result (code.new ≡ value_specs_code (frame_of (N.looks frame.now.names.now) frame.now.slots.now) (shape_value decl.now).kind (shape_value decl.now).specs ++ code.old) }
{
    match &decl.specs {
        ValueSpecs::One(spec) => value_spec(code, frame, decl.kind, spec),
        ValueSpecs::Group(_, lines, _) => {
            for at in (0..lines.len()).rev() {
                value_spec(code, frame, decl.kind, &lines[at].spec)?;
            }
            Ok(())
        }
    }
}
