//! Specifications of constants.
ghost use Rattle.std.specs.Prelude.{◌≡◌, ◌++◌, IfOk, OnOk, map, replicate};
ghost use Rattle.go_tree_nodes.specs.declared.decls.ValueKind.TheVariants as kinds;
ghost use Rattle.go_tree_nodes.specs.Shapes.{exprs_from, shape_exprs, shape_value_spec, shape_values};
ghost use Rattle.go_tree_nodes.specs.TypeShapes.{shape_idents};
ghost use Rattle.go_expr_core.specs.denote_core.declared.things.Argument.TheVariants as arguments;
ghost use Rattle.go_stmt_core.specs.statement.Constants.{constant_answer as answer_of};
ghost use Rattle.go_expr_core.specs.Looks.{everywhere};
ghost use Rattle.go_stmt_core.specs.piece.Values as lists;
ghost use Rattle.go_stmt_core.specs.piece.Specifications as specifications;

use crate::piece::given::check_list;
use crate::piece::starts::{is_lone_call, names_start};
use crate::piece::types::check_some_type;
use crate::piece::variables::count_names;
use crate::statement::{constant_answer, constants_rule};
use go_constant_core::text_core::Rule;
use go_expr_core::denote_core::Argument;
use go_expr_core::local_core::Fault;
use go_expr_core::operand_core::{Operand, TypeLooks};
use go_expr_core::{Exprs, Notes, note_fault, start};
use go_tree_nodes::{Expr, Idents, NextExpr, ValueSpec, Values};
use std::alloc::{AllocError, Global};

// Where the rule of a constant lies.
fn constant_place(first: usize, place: usize, rule: Rule) -> usize
    ensures { result ≡ specifications.constant_place first place rule }
{
    if matches!(rule, Rule::Y7) {
        place
    } else {
        first
    }
}

// Notes the rule of a constant whose expression is at a place, in a specification whose first name is at another.
fn note_constant(
    faults: &mut Vec<Fault>,
    first: usize,
    place: usize,
    rule: Option<Rule>,
) -> Result<(), AllocError>
    ensures { OnOk result (faults.new.items ≡ faults.old.items ++ specifications.constant_fault first place rule) }
{
    match rule {
        None => Ok(()),
        Some(rule) => note_fault(faults, constant_place(first, place, rule), Some(rule)),
    }
}

// One constant.
fn check_constant<E: TypeLooks>(
    env: &E,
    alloc: Global,
    written: &Option<Option<E::Type>>,
    first: usize,
    place: usize,
    argument: &Argument<E::Type>,
    faults: &mut Vec<Fault>,
) -> Result<Option<Operand<E::Type>>, AllocError>
    ensures value { IfOk result (λ v. v ≡ specifications.constant_value (E.types env.now) written.now argument.now) }
    ensures faults { OnOk result (faults.new.items ≡ faults.old.items ++ specifications.constant_fault first place (answer_of (E.types env.now) written.now argument.now).rule) }
{
    let answer = constant_answer(env, alloc, written, argument)?;
    note_constant(faults, first, place, answer.rule)?;
    Ok(answer.value)
}

// The list from its second expression on; the only one of a list gives all of its values.
fn behind<'t>(expr: &'t Expr, more: &'t [NextExpr]) -> (&'t Expr, &'t [NextExpr])
    ensures { exprs_from result.0.now result.1.now ≡ lists.behind (exprs_from expr.now more.now) }
{
    match more.split_first() {
        None => (expr, more),
        Some((next, rest)) => (&next.expr, rest),
    }
}

// Each of the values of a list, at its own expression.
fn check_each<E: TypeLooks>(
    env: &E,
    alloc: Global,
    written: &Option<Option<E::Type>>,
    first: usize,
    exprs: &go_tree_nodes::Exprs,
    given: &[Argument<E::Type>],
    faults: &mut Vec<Fault>,
) -> Result<Vec<Option<Operand<E::Type>>>, AllocError>
    ensures values { IfOk result (λ vs. vs.items ≡ map (specifications.constant_value (E.types env.now) written.now) given.now) }
    ensures faults { OnOk result (faults.new.items ≡ faults.old.items ++ specifications.each_constant_faults (E.types env.now) written.now first (shape_exprs exprs.now) given.now) }
{
    let mut all = Vec::with_capacity(alloc, given.len())?;
    let mut expr = &exprs.first;
    let mut more = exprs.more.as_slice();
    for argument in given {
        let value = check_constant(env, alloc, written, first, start(expr), argument, faults)?;
        all.push(value)?;
        (expr, more) = behind(expr, more);
    }
    Ok(all)
}

// So many constants whose expressions are refused.
fn repeated<E: TypeLooks>(
    env: &E,
    alloc: Global,
    written: &Option<Option<E::Type>>,
    count: usize,
) -> Result<Vec<Option<Operand<E::Type>>>, AllocError>
    ensures { IfOk result (λ vs. vs.items ≡ replicate count (specifications.constant_value (E.types env.now) written.now arguments.Refused)) }
{
    let mut all = Vec::with_capacity(alloc, count)?;
    for _ in 0..count {
        let answer = constant_answer(env, alloc, written, &Argument::Refused)?;
        all.push(answer.value)?;
    }
    Ok(all)
}

// What the names stand for, by what their list gives.
fn check_given<E: TypeLooks>(
    env: &E,
    alloc: Global,
    written: &Option<Option<E::Type>>,
    count: usize,
    first: usize,
    exprs: &go_tree_nodes::Exprs,
    given: &[Argument<E::Type>],
    faults: &mut Vec<Fault>,
) -> Result<Vec<Option<Operand<E::Type>>>, AllocError>
    ensures values { IfOk result (λ vs. vs.items ≡ specifications.constant_values (E.types env.now) written.now count given.now) }
    ensures faults { OnOk result (faults.new.items ≡ faults.old.items ++ specifications.each_constant_faults (E.types env.now) written.now first (shape_exprs exprs.now) given.now) }
{
    let values = check_each(env, alloc, written, first, exprs, given, faults)?;
    if count == given.len() {
        return Ok(values);
    }
    repeated(env, alloc, written, count)
}

// The list of a specification of constants, where one stands, by the type that is written.
fn give<E: Exprs>(
    env: &E,
    alloc: Global,
    names: &Idents,
    written: &Option<Option<E::Type>>,
    values: &Option<Values>,
    notes: &mut Notes<E::Decl, E::Path>,
) -> Result<Vec<Option<Operand<E::Type>>>, AllocError>
    ensures values { IfOk result (λ vs. vs.items ≡ specifications.names_values (everywhere (E.types env.now) (E.names env.now) (E.literals env.now) (E.written env.now)) kinds.Const (shape_idents names.now) written.now (shape_values values.now)) }
    ensures uses { OnOk result (notes.new.uses.items ≡ notes.old.uses.items ++ specifications.values_uses (everywhere (E.types env.now) (E.names env.now) (E.literals env.now) (E.written env.now)) (shape_values values.now)) }
    ensures faults { OnOk result (notes.new.faults.items ≡ notes.old.faults.items ++ (specifications.values_faults (everywhere (E.types env.now) (E.names env.now) (E.literals env.now) (E.written env.now)) (shape_values values.now) ++ specifications.constants_faults (everywhere (E.types env.now) (E.names env.now) (E.literals env.now) (E.written env.now)) (shape_idents names.now) written.now (shape_values values.now))) }
{
    let count = count_names(names);
    match values {
        None => repeated(env, alloc, written, count),
        Some(values) => {
            let exprs = &values.exprs;
            let given = check_list(env, alloc, exprs, notes)?;
            let list = &given.values;
            let first = names_start(names);
            let rule = constants_rule(env, is_lone_call(exprs), count, list);
            let faults = &mut notes.faults;
            note_fault(faults, first, rule)?;
            check_given(env, alloc, written, count, first, exprs, list, faults)
        }
    }
}

/// Checks a specification of constants, and answers what they stand for: none for one without a type.
pub(crate) fn check_constants<E: Exprs>(
    env: &E,
    alloc: Global,
    spec: &ValueSpec,
    notes: &mut Notes<E::Decl, E::Path>,
) -> Result<Vec<Option<Operand<E::Type>>>, AllocError>
    ensures values { IfOk result (λ vs. vs.items ≡ specifications.spec_values (everywhere (E.types env.now) (E.names env.now) (E.literals env.now) (E.written env.now)) kinds.Const (shape_value_spec spec.now)) }
    ensures uses { OnOk result (notes.new.uses.items ≡ notes.old.uses.items ++ specifications.spec_uses (everywhere (E.types env.now) (E.names env.now) (E.literals env.now) (E.written env.now)) (shape_value_spec spec.now)) }
    ensures faults { OnOk result (notes.new.faults.items ≡ notes.old.faults.items ++ specifications.spec_faults (everywhere (E.types env.now) (E.names env.now) (E.literals env.now) (E.written env.now)) kinds.Const (shape_value_spec spec.now)) }
{
    let written = check_some_type(env, alloc, &spec.type_expr, notes)?;
    give(env, alloc, &spec.names, &written, &spec.values, notes)
}
