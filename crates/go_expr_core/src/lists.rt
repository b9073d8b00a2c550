//! Lists of expressions.
ghost use Rattle.std.specs.Prelude.{◌≡◌, ◌++◌, IfOk, OnOk};
ghost use Rattle.go_tree_nodes.specs.Shapes.{shape_exprs};
ghost use Rattle.go_expr_core.specs.Looks.{everywhere};
ghost use Rattle.go_expr_core.specs.Lists as lists;

use crate::looks::Exprs;
use crate::things::Notes;
use crate::walk::check_member;
use go_denote_core::Denoted;
use std::alloc::{AllocError, Global};

/// Whether a list has more than one expression.
pub fn is_list(exprs: &go_tree_nodes::Exprs) -> bool
    ensures { result ≡ lists.is_list (shape_exprs exprs.now) }
{
    match exprs.more.as_slice() {
        [] => false,
        _ => true,
    }
}

/// Notes what the identifiers and the calls of expressions with commas between them have, and their faults, and answers what each
/// denotes as an operand. In a list of several one that is no single value breaks Y3.
///
/// # Errors
///
/// `AllocError` where memory is wanting; then some may be noted.
pub fn check_exprs<E: Exprs>(
    env: &E,
    alloc: Global,
    exprs: &go_tree_nodes::Exprs,
    notes: &mut Notes<E::Decl, E::Path>,
) -> Result<Vec<Denoted<E::Type, E::Signature, E::Decl>>, AllocError>
    ensures denoted { IfOk result (λ ds. ds.items ≡ lists.denoted_exprs (everywhere (E.types env.now) (E.names env.now) (E.literals env.now) (E.written env.now)) (shape_exprs exprs.now)) }
    ensures uses { OnOk result (notes.new.uses.items ≡ notes.old.uses.items ++ lists.exprs_uses (everywhere (E.types env.now) (E.names env.now) (E.literals env.now) (E.written env.now)) (shape_exprs exprs.now)) }
    ensures faults { OnOk result (notes.new.faults.items ≡ notes.old.faults.items ++ lists.exprs_faults (everywhere (E.types env.now) (E.names env.now) (E.literals env.now) (E.written env.now)) (lists.is_list (shape_exprs exprs.now)) (shape_exprs exprs.now)) }
{
    let several = is_list(exprs);
    let mut members = Vec::new(alloc);
    let first = check_member(env, alloc, several, &exprs.first, notes)?;
    members.push(first)?;
    for next in &exprs.more {
        let denoted = check_member(env, alloc, several, &next.expr, notes)?;
        members.push(denoted)?;
    }
    Ok(members)
}
