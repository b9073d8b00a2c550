//! Specifications of variables.
ghost use Rattle.std.specs.Prelude.{◌≡◌, ◌++◌, IfOk, OnOk, length};
ghost use Rattle.go_tree_nodes.specs.declared.decls.ValueKind.TheVariants as kinds;
ghost use Rattle.go_tree_nodes.specs.Shapes.{shape_value_spec, shape_values};
ghost use Rattle.go_tree_nodes.specs.TypeShapes.{shape_idents};
ghost use Rattle.go_expr_core.specs.local_core.Outline.{idents};
ghost use Rattle.go_expr_core.specs.Looks.{everywhere};
ghost use Rattle.go_stmt_core.specs.piece.Specifications as specifications;

use crate::piece::given::check_list;
use crate::piece::starts::{is_lone_call, names_start};
use crate::piece::types::{check_some_type, variables};
use crate::statement::{declared_types, initials_rule, variables_rule};
use go_expr_core::operand_core::Operand;
use go_expr_core::{Exprs, Notes, note_fault};
use go_tree_nodes::{Idents, ValueSpec, Values};
use std::alloc::{AllocError, Global};

/// How many names there are.
pub(crate) fn count_names(names: &Idents) -> usize
    ensures { result ≡ length (idents (shape_idents names.now)) }
{
    names.more.len() + 1
}

// The list of a specification of variables, where one stands, by the type that is written.
fn give<E: Exprs>(
    env: &E,
    alloc: Global,
    names: &Idents,
    written: &Option<Option<E::Type>>,
    values: &Option<Values>,
    notes: &mut Notes<E::Decl, E::Path>,
) -> Result<Vec<Option<E::Type>>, AllocError>
    ensures types { IfOk result (λ ts. ts.items ≡ specifications.variable_types (everywhere (E.types env.now) (E.names env.now) (E.literals env.now) (E.written env.now)) (shape_idents names.now) written.now (shape_values values.now)) }
    ensures uses { OnOk result (notes.new.uses.items ≡ notes.old.uses.items ++ specifications.values_uses (everywhere (E.types env.now) (E.names env.now) (E.literals env.now) (E.written env.now)) (shape_values values.now)) }
    ensures faults { OnOk result (notes.new.faults.items ≡ notes.old.faults.items ++ (specifications.values_faults (everywhere (E.types env.now) (E.names env.now) (E.literals env.now) (E.written env.now)) (shape_values values.now) ++ specifications.variables_faults (everywhere (E.types env.now) (E.names env.now) (E.literals env.now) (E.written env.now)) (shape_idents names.now) written.now (shape_values values.now))) }
{
    let count = count_names(names);
    match values {
        None => {
            let none = Vec::new(alloc);
            declared_types(env, alloc, written, count, &none)
        }
        Some(values) => {
            let given = check_list(env, alloc, &values.exprs, notes)?;
            let list = &given.values;
            let rule = variables_rule(env, alloc, written, count, given.is_unknown, list)?;
            note_fault(&mut notes.faults, names_start(names), rule)?;
            declared_types(env, alloc, written, count, list)
        }
    }
}

// The list of a specification of variables outside functions, where one stands, by the type that is written.
fn give_initials<E: Exprs>(
    env: &E,
    alloc: Global,
    names: &Idents,
    written: &Option<Option<E::Type>>,
    values: &Option<Values>,
    notes: &mut Notes<E::Decl, E::Path>,
) -> Result<(), AllocError>
    ensures uses { OnOk result (notes.new.uses.items ≡ notes.old.uses.items ++ specifications.values_uses (everywhere (E.types env.now) (E.names env.now) (E.literals env.now) (E.written env.now)) (shape_values values.now)) }
    ensures faults { OnOk result (notes.new.faults.items ≡ notes.old.faults.items ++ (specifications.values_faults (everywhere (E.types env.now) (E.names env.now) (E.literals env.now) (E.written env.now)) (shape_values values.now) ++ specifications.initials_faults (everywhere (E.types env.now) (E.names env.now) (E.literals env.now) (E.written env.now)) (shape_idents names.now) written.now (shape_values values.now))) }
{
    let count = count_names(names);
    match values {
        None => Ok(()),
        Some(values) => {
            let exprs = &values.exprs;
            let given = check_list(env, alloc, exprs, notes)?;
            let is_call = is_lone_call(exprs);
            let rule = initials_rule(env, alloc, written, count, is_call, given.values)?;
            note_fault(&mut notes.faults, names_start(names), rule)
        }
    }
}

/// Checks a specification of variables outside functions.
pub(crate) fn check_initials<E: Exprs>(
    env: &E,
    alloc: Global,
    spec: &ValueSpec,
    notes: &mut Notes<E::Decl, E::Path>,
) -> Result<(), AllocError>
    ensures uses { OnOk result (notes.new.uses.items ≡ notes.old.uses.items ++ specifications.spec_uses (everywhere (E.types env.now) (E.names env.now) (E.literals env.now) (E.written env.now)) (shape_value_spec spec.now)) }
    ensures faults { OnOk result (notes.new.faults.items ≡ notes.old.faults.items ++ specifications.outer_faults (everywhere (E.types env.now) (E.names env.now) (E.literals env.now) (E.written env.now)) kinds.Var (shape_value_spec spec.now)) }
{
    let written = check_some_type(env, alloc, &spec.type_expr, notes)?;
    give_initials(env, alloc, &spec.names, &written, &spec.values, notes)
}

/// Checks a specification of variables, and answers what they stand for: none for one without a type.
pub(crate) fn check_variables<E: Exprs>(
    env: &E,
    alloc: Global,
    spec: &ValueSpec,
    notes: &mut Notes<E::Decl, E::Path>,
) -> Result<Vec<Option<Operand<E::Type>>>, AllocError>
    ensures values { IfOk result (λ vs. vs.items ≡ specifications.spec_values (everywhere (E.types env.now) (E.names env.now) (E.literals env.now) (E.written env.now)) kinds.Var (shape_value_spec spec.now)) }
    ensures uses { OnOk result (notes.new.uses.items ≡ notes.old.uses.items ++ specifications.spec_uses (everywhere (E.types env.now) (E.names env.now) (E.literals env.now) (E.written env.now)) (shape_value_spec spec.now)) }
    ensures faults { OnOk result (notes.new.faults.items ≡ notes.old.faults.items ++ specifications.spec_faults (everywhere (E.types env.now) (E.names env.now) (E.literals env.now) (E.written env.now)) kinds.Var (shape_value_spec spec.now)) }
{
    let written = check_some_type(env, alloc, &spec.type_expr, notes)?;
    let types = give(env, alloc, &spec.names, &written, &spec.values, notes)?;
    variables(alloc, types)
}
