//! What a name of a specification of constants or variables stands for.
ghost use Rattle.std.specs.Prelude.{◌≡◌, IfOk, Some, true};
ghost use Rattle.go_tree_nodes.specs.Shapes.{shape, shape_some_type, shape_value_spec};
ghost use Rattle.go_stmt_core.specs.denote_core.declared.things.Stand.TheVariants as stands;
ghost use Rattle.go_stmt_core.specs.expr_core.Looks.{everywhere};
ghost use Rattle.go_stmt_core.specs.expr_core.Denoting as denoting;
ghost use Rattle.go_value_core.specs.Initial as values;
ghost use Rattle.go_value_core.specs.mirrors.Own as own;

use crate::specs::{expr_of, is_alone, name_count};
use go_stmt_core::denote_core::{Argument, Denoted, Stand, argument_of, arguments_of};
use go_stmt_core::expr_core::{Exprs, Notes, check_expr};
use go_stmt_core::operand_core::Operand;
use go_stmt_core::piece::variable;
use go_stmt_core::statement::{constant_answer, declared_types, initial_argument};
use go_tree_nodes::{Expr, TypeExpr, ValueKind, ValueSpec};
use std::alloc::{AllocError, Global};

// What an expression denotes as an operand. What is noted of it is let go.
fn denoted<E: Exprs>(
    env: &E,
    alloc: Global,
    expr: &Expr,
) -> Result<Denoted<E::Type, E::Signature, E::Decl>, AllocError>
    ensures { IfOk result (λ d. d ≡ denoting.denoted (everywhere (E.types env.now) (E.names env.now) (E.literals env.now) (E.written env.now)) stands.«Value» (shape expr.now)) }
{
    let mut notes = Notes {
        uses: Vec::new(alloc),
        faults: Vec::new(alloc),
    };
    check_expr(env, alloc, Stand::Value, expr, &mut notes)
}

// One of so many values, by its number: refused where there are not as many.
fn one_of<T: Drop>(mut given: Vec<Argument<T>>, count: usize, at: usize) -> Argument<T>
    ensures { result ≡ own.one_of count at given.items }
{
    if given.len() != count {
        return Argument::Refused;
    }
    if at >= count {
        return Argument::Refused;
    }
    given.swap_remove(at)
}

// What the expression of a list alone gives to one of so many names, by its number.
fn given_alone<E: Exprs>(
    env: &E,
    alloc: Global,
    expr: &Expr,
    count: usize,
    at: usize,
) -> Result<Argument<E::Type>, AllocError>
    ensures { IfOk result (λ a. a ≡ own.given_by (everywhere (E.types env.now) (E.names env.now) (E.literals env.now) (E.written env.now)) count at true (Some (shape expr.now))) }
{
    let mut members = Vec::new(alloc);
    members.push(denoted(env, alloc, expr)?)?;
    let given = arguments_of(env, alloc, members)?;
    Ok(one_of(given, count, at))
}

// The value of a name, by its number.
fn own_argument<E: Exprs>(
    env: &E,
    alloc: Global,
    spec: &ValueSpec,
    at: usize,
) -> Result<Argument<E::Type>, AllocError>
    ensures { IfOk result (λ a. a ≡ own.own_argument (everywhere (E.types env.now) (E.names env.now) (E.literals env.now) (E.written env.now)) (shape_value_spec spec.now) at) }
{
    match expr_of(spec, at) {
        None => Ok(Argument::Refused),
        Some(expr) => {
            if is_alone(&spec.values) {
                return given_alone(env, alloc, expr, name_count(spec), at);
            }
            Ok(argument_of(denoted(env, alloc, expr)?))
        }
    }
}

// The type that is written.
fn some_type<E: Exprs>(
    env: &E,
    alloc: Global,
    tree: &Option<TypeExpr>,
) -> Result<Option<Option<E::Type>>, AllocError>
    ensures { IfOk result (λ t. t ≡ values.some_written_type (everywhere (E.types env.now) (E.names env.now) (E.literals env.now) (E.written env.now)) (shape_some_type tree.now)) }
{
    match tree {
        None => Ok(None),
        Some(tree) => Ok(Some(env.written(alloc, tree)?)),
    }
}

// The type of a variable, by the type that is written and its value.
fn type_from<E: Exprs>(
    env: &E,
    alloc: Global,
    written: &Option<Option<E::Type>>,
    given: Argument<E::Type>,
) -> Result<Option<E::Type>, AllocError>
    ensures { IfOk result (λ t. t ≡ own.type_from (E.types env.now) written.now given) }
{
    let mut members = Vec::new(alloc);
    members.push(initial_argument(given))?;
    let mut types = declared_types(env, alloc, written, 1, &members)?;
    match types.pop() {
        None => Ok(None),
        Some(t) => Ok(t),
    }
}

// What a name stands for, by the type that is written and its value.
fn value_from<E: Exprs>(
    env: &E,
    alloc: Global,
    kind: ValueKind,
    written: &Option<Option<E::Type>>,
    given: Argument<E::Type>,
) -> Result<Option<Operand<E::Type>>, AllocError>
    ensures { IfOk result (λ v. v ≡ own.value_from (E.types env.now) kind written.now given) }
{
    match kind {
        ValueKind::Const => Ok(constant_answer(env, alloc, written, &given)?.value),
        ValueKind::Var => Ok(variable(type_from(env, alloc, written, given)?)),
    }
}

/// What the name of a number, from 0, of a specification of constants or variables stands for, which is none where it has no type. One
/// expression is checked, and what is noted of it is let go.
///
/// Where there are as many expressions as names, each has its own; a call alone with several results stands for these. Else a constant is
/// as one whose expression is refused, and a variable has its written type or none. A value of a variable that is no constant is refused:
/// such a variable has its written type or none. The Go specification, "Constant declarations",
/// "Variable declarations".
///
/// # Errors
///
/// `AllocError` where memory is wanting.
pub fn initial_value<E: Exprs>(
    env: &E,
    alloc: Global,
    kind: ValueKind,
    spec: &ValueSpec,
    at: usize,
) -> Result<Option<Operand<E::Type>>, AllocError>
    ensures { IfOk result (λ v. v ≡ values.initial (everywhere (E.types env.now) (E.names env.now) (E.literals env.now) (E.written env.now)) kind (shape_value_spec spec.now) at) }
{
    if at >= name_count(spec) {
        return Ok(None);
    }
    let written = some_type(env, alloc, &spec.type_expr)?;
    let given = own_argument(env, alloc, spec, at)?;
    value_from(env, alloc, kind, &written, given)
}
