//! Types that are written in headers and specifications.
ghost use Rattle.std.specs.Prelude.{◌≡◌, ◌++◌, IfOk, OnOk, map};
ghost use Rattle.go_tree_nodes.specs.Shapes.{shape_some_type};
ghost use Rattle.go_tree_nodes.specs.TypeShapes.{shape_type};
ghost use Rattle.go_expr_core.specs.Looks.{everywhere};
ghost use Rattle.go_expr_core.specs.Denoting.{written_type};
ghost use Rattle.go_stmt_core.specs.piece.Values as values;
ghost use Rattle.go_stmt_core.specs.piece.Types as types;

use go_expr_core::local_core::Fault;
use go_expr_core::operand_core::{Operand, ValueType};
use go_expr_core::{Exprs, Notes, check_type};
use go_tree_nodes::TypeExpr;
use std::alloc::{AllocError, Global};

/// Notes the faults of a type that is written, and answers it.
pub(crate) fn make_type<E: Exprs>(
    env: &E,
    alloc: Global,
    tree: &TypeExpr,
    faults: &mut Vec<Fault>,
) -> Result<Option<E::Type>, AllocError>
    ensures t { IfOk result (λ t. t ≡ written_type (everywhere (E.types env.now) (E.names env.now) (E.literals env.now) (E.written env.now)) (shape_type tree.now)) }
    ensures faults { OnOk result (faults.new.items ≡ faults.old.items ++ types.type_faults (everywhere (E.types env.now) (E.names env.now) (E.literals env.now) (E.written env.now)) (shape_type tree.now)) }
{
    env.add_type_faults(alloc, tree, faults)?;
    env.written(alloc, tree)
}

/// Checks the type of a specification, where one is written.
pub(crate) fn check_some_type<E: Exprs>(
    env: &E,
    alloc: Global,
    tree: &Option<TypeExpr>,
    notes: &mut Notes<E::Decl, E::Path>,
) -> Result<Option<Option<E::Type>>, AllocError>
    ensures t { IfOk result (λ t. t ≡ types.some_written_type (everywhere (E.types env.now) (E.names env.now) (E.literals env.now) (E.written env.now)) (shape_some_type tree.now)) }
    ensures uses { OnOk result (notes.new.uses.items ≡ notes.old.uses.items ++ types.some_type_uses (everywhere (E.types env.now) (E.names env.now) (E.literals env.now) (E.written env.now)) (shape_some_type tree.now)) }
    ensures faults { OnOk result (notes.new.faults.items ≡ notes.old.faults.items ++ types.some_type_faults (everywhere (E.types env.now) (E.names env.now) (E.literals env.now) (E.written env.now)) (shape_some_type tree.now)) }
{
    match tree {
        None => Ok(None),
        Some(tree) => {
            check_type(env, alloc, tree, &mut notes.uses)?;
            let t = make_type(env, alloc, tree, &mut notes.faults)?;
            Ok(Some(t))
        }
    }
}

/// What a variable stands for, by its type: an addressable operand that is no constant, or none where it has no type. The Go specification,
/// "Address operators", "Variables".
pub fn variable<T: Drop>(t: Option<T>) -> Option<Operand<T>>
    ensures { result ≡ values.variable t }
{
    match t {
        None => None,
        Some(t) => Some(Operand {
            value_type: ValueType::Typed(t),
            constant: None,
            addressable: true,
        }),
    }
}

/// Variables of some types.
pub(crate) fn variables<T: Drop>(
    alloc: Global,
    types: Vec<Option<T>>,
) -> Result<Vec<Option<Operand<T>>>, AllocError>
    ensures { IfOk result (λ all. all.items ≡ map values.variable types.items) }
{
    let mut all = Vec::with_capacity(alloc, types.len())?;
    for t in types {
        all.push(variable(t))?;
    }
    Ok(all)
}
