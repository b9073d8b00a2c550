//! The identifier of a piece of a function, and of a specification, that begins at an offset.
ghost use Rattle.std.specs.Prelude.{◌≡◌, ◌++◌};
ghost use Rattle.go_tree_nodes.specs.Shapes.{shape, shape_exprs, shape_some_exprs, shape_some_type, shape_values, shape_value_spec, shape_simple};
ghost use Rattle.go_tree_nodes.specs.TypeShapes.{shape_signature};
ghost use Rattle.go_expr_core.specs.denote_core.declared.things.Stand.TheVariants as stands;
ghost use Rattle.go_cursor_core.specs.Shown.{found_shown};
ghost use Rattle.go_cursor_core.specs.Used.{first_used, expr_used, exprs_used, some_type_used, values_used, spec_used, target_used, targets_used, simple_used, given_used, receiver_used, header_used};

use crate::exprs::{in_expr, in_exprs};
use crate::spot::UsedName;
use crate::types::{in_signature, in_type, in_type_name};
use go_expr_core::denote_core::Stand;
use go_expr_core::local_core::is_blank_target;
use go_tree_nodes::{
    Assignment, Expr, Exprs, FuncDecl, Receiver, Simple, TypeExpr, Update, ValueSpec, Values,
};

fn in_some_type(type_expr: &Option<TypeExpr>, start: usize) -> Option<UsedName<'_>>
    ensures { found_shown result ≡ first_used start (some_type_used (shape_some_type type_expr.now)) }
{
    match type_expr {
        None => None,
        Some(type_expr) => in_type(type_expr, start),
    }
}

fn in_values(values: &Option<Values>, start: usize) -> Option<UsedName<'_>>
    ensures { found_shown result ≡ first_used start (values_used (shape_values values.now)) }
{
    match values {
        None => None,
        Some(values) => in_exprs(&values.exprs, start),
    }
}

/// The identifier of a specification of constants or variables.
pub(crate) fn in_spec(spec: &ValueSpec, start: usize) -> Option<UsedName<'_>>
    ensures { found_shown result ≡ first_used start (spec_used (shape_value_spec spec.now)) }
{
    match in_some_type(&spec.type_expr, start) {
        None => in_values(&spec.values, start),
        found => found,
    }
}

// Left of `=`, where `_` is no identifier that is used.
fn in_target(target: &Expr, start: usize) -> Option<UsedName<'_>>
    ensures { found_shown result ≡ first_used start (target_used (shape target.now)) }
{
    if is_blank_target(target) {
        return None;
    }
    in_expr(target, start, Stand::Value)
}

fn in_targets(targets: &Exprs, start: usize) -> Option<UsedName<'_>>
    ensures { found_shown result ≡ first_used start (targets_used (shape_exprs targets.now)) }
{
    let found = in_target(&targets.first, start);
    if found.is_some() {
        return found;
    }
    for next in &targets.more {
        let found = in_target(&next.expr, start);
        if found.is_some() {
            return found;
        }
    }
    None
}

fn in_assignment(assignment: &Assignment, start: usize) -> Option<UsedName<'_>>
    ensures { found_shown result ≡ first_used start (targets_used (shape_exprs assignment.now.targets) ++ exprs_used (shape_exprs assignment.now.values)) }
{
    match in_targets(&assignment.targets, start) {
        None => in_exprs(&assignment.values, start),
        found => found,
    }
}

fn in_update(update: &Update, start: usize) -> Option<UsedName<'_>>
    ensures { found_shown result ≡ first_used start (expr_used stands.«Value» (shape update.now.target) ++ expr_used stands.«Value» (shape update.now.value)) }
{
    match in_expr(&update.target, start, Stand::Value) {
        None => in_expr(&update.value, start, Stand::Value),
        found => found,
    }
}

/// The identifier of a statement that may stand in a header.
pub(crate) fn in_simple(simple: &Simple, start: usize) -> Option<UsedName<'_>>
    ensures { found_shown result ≡ first_used start (simple_used (shape_simple simple.now)) }
{
    match simple {
        Simple::Expr(expr) => in_expr(expr, start, Stand::Value),
        Simple::Step(expr, _, _) => in_expr(expr, start, Stand::Value),
        Simple::Assign(assignment) => in_assignment(assignment, start),
        Simple::Update(update) => in_update(update, start),
        Simple::Define(definition) => in_exprs(&definition.values, start),
    }
}

/// The identifier of what is returned.
pub(crate) fn in_given(values: &Option<Box<Exprs>>, start: usize) -> Option<UsedName<'_>>
    ensures { found_shown result ≡ first_used start (given_used (shape_some_exprs values.now)) }
{
    match values {
        None => None,
        Some(values) => in_exprs(values, start),
    }
}

fn in_receiver(receiver: &Option<Receiver>, start: usize) -> Option<UsedName<'_>>
    ensures { found_shown result ≡ first_used start (receiver_used receiver.now) }
{
    match receiver {
        None => None,
        Some(receiver) => in_type_name(&receiver.base, start),
    }
}

/// The identifier of the receiver, the parameters and the results of a function.
pub(crate) fn in_header(func: &FuncDecl, start: usize) -> Option<UsedName<'_>>
    ensures { found_shown result ≡ first_used start (header_used func.now.receiver (shape_signature func.now.signature)) }
{
    match in_receiver(&func.receiver, start) {
        None => in_signature(&func.signature, start),
        found => found,
    }
}
