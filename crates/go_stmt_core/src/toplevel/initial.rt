//! Initialisers of package variables.
ghost use Rattle.std.specs.Prelude.{◌≡◌, ◌++◌, OnOk};
ghost use Rattle.go_tree_nodes.specs.Shapes.{shape, shape_exprs, shape_value_spec, shape_values};
ghost use Rattle.go_expr_core.specs.Looks.{everywhere};
ghost use Rattle.go_expr_core.specs.Faults as expr_faults;
ghost use Rattle.go_stmt_core.specs.toplevel.Initial as initials;

use go_constant_core::text_core::Rule;
use go_expr_core::denote_core::{Denoted, Stand};
use go_expr_core::local_core::Fault;
use go_expr_core::{Exprs, Notes, check_expr, start};
use go_tree_nodes::{Expr, ValueKind, ValueSpec, Values};
use std::alloc::{AllocError, Global};

// The rule of an initialiser that denotes this.
fn initial_rule<T: Drop, S: Drop, D: Drop>(denoted: &Denoted<T, S, D>) -> Option<Rule>
    ensures { result ≡ initials.initial_rule denoted.now }
{
    match denoted {
        Denoted::Value(operand) => {
            if operand.constant.is_some() {
                None
            } else {
                Some(Rule::X1)
            }
        }
        Denoted::Refused
        | Denoted::Typeless
        | Denoted::Package(_)
        | Denoted::Type(_, _)
        | Denoted::Several(_)
        | Denoted::Nothing
        | Denoted::Func(_, _)
        | Denoted::Builtin(_, _) => Some(Rule::X1),
    }
}

// Notes the rule of an initialiser. What its parts have and break is noted elsewhere.
fn note_initial<E: Exprs>(
    env: &E,
    alloc: Global,
    expr: &Expr,
    faults: &mut Vec<Fault>,
) -> Result<(), AllocError>
    ensures { OnOk result (faults.new.items ≡ faults.old.items ++ initials.expr_initial_faults (everywhere (E.types env.now) (E.names env.now) (E.literals env.now) (E.written env.now)) (shape expr.now)) }
{
    let mut aside = Notes {
        uses: Vec::new(alloc),
        faults: Vec::new(alloc),
    };
    let denoted = check_expr(env, alloc, Stand::Value, expr, &mut aside)?;
    match initial_rule(&denoted) {
        None => Ok(()),
        Some(rule) => {
            let offset = start(expr);
            faults.push(Fault { offset, rule })?;
            Ok(())
        }
    }
}

// Notes the rules of the initialisers of a list.
fn note_list<E: Exprs>(
    env: &E,
    alloc: Global,
    exprs: &go_tree_nodes::Exprs,
    faults: &mut Vec<Fault>,
) -> Result<(), AllocError>
    ensures { OnOk result (faults.new.items ≡ faults.old.items ++ initials.list_initial_faults (everywhere (E.types env.now) (E.names env.now) (E.literals env.now) (E.written env.now)) (shape_exprs exprs.now)) }
{
    note_initial(env, alloc, &exprs.first, faults)?;
    for next in &exprs.more {
        note_initial(env, alloc, &next.expr, faults)?;
    }
    Ok(())
}

// Notes the rules of the initialisers of variables, if there are initialisers.
fn note_values<E: Exprs>(
    env: &E,
    alloc: Global,
    values: &Option<Values>,
    faults: &mut Vec<Fault>,
) -> Result<(), AllocError>
    ensures { OnOk result (faults.new.items ≡ faults.old.items ++ initials.values_initial_faults (everywhere (E.types env.now) (E.names env.now) (E.literals env.now) (E.written env.now)) (shape_values values.now)) }
{
    match values {
        None => Ok(()),
        Some(values) => note_list(env, alloc, &values.exprs, faults),
    }
}

/// Notes the rules of the initialisers of a specification outside functions, if it is one of variables.
pub(crate) fn note_initials<E: Exprs>(
    env: &E,
    alloc: Global,
    kind: ValueKind,
    spec: &ValueSpec,
    faults: &mut Vec<Fault>,
) -> Result<(), AllocError>
    ensures { OnOk result (faults.new.items ≡ faults.old.items ++ initials.initial_faults (everywhere (E.types env.now) (E.names env.now) (E.literals env.now) (E.written env.now)) kind (shape_value_spec spec.now)) }
{
    match kind {
        ValueKind::Const => Ok(()),
        ValueKind::Var => note_values(env, alloc, &spec.values, faults),
    }
}
