//! The values that a list of expressions gives.
ghost use Rattle.std.specs.Prelude.{◌≡◌, ◌++◌, IfOk, OnOk};
ghost use Rattle.go_tree_nodes.specs.Shapes.{shape_exprs};
ghost use Rattle.go_expr_core.specs.Looks.{everywhere};
ghost use Rattle.go_stmt_core.specs.piece.Values as values;

use crate::piece::starts::is_lone_call;
use go_expr_core::denote_core::{Argument, arguments_of, is_free};
use go_expr_core::{Exprs, Notes, check_exprs};
use std::alloc::{AllocError, Global};

/// What a list of expressions gives.
#[derive(Drop)]
pub struct Given<T> {
    /// Its values: a call alone with several results stands for these.
    pub values: Vec<Argument<T>>,
    /// Whether nothing is known of them, since the list is one call, and refused.
    pub is_unknown: bool,
}

/// Checks a list of expressions.
pub(crate) fn check_list<E: Exprs>(
    env: &E,
    alloc: Global,
    exprs: &go_tree_nodes::Exprs,
    notes: &mut Notes<E::Decl, E::Path>,
) -> Result<Given<E::Type>, AllocError>
    ensures values { IfOk result (λ g. g.values.items ≡ values.given (everywhere (E.types env.now) (E.names env.now) (E.literals env.now) (E.written env.now)) (shape_exprs exprs.now)) }
    ensures unknown { IfOk result (λ g. g.is_unknown ≡ values.is_unknown (everywhere (E.types env.now) (E.names env.now) (E.literals env.now) (E.written env.now)) (shape_exprs exprs.now)) }
    ensures uses { OnOk result (notes.new.uses.items ≡ notes.old.uses.items ++ values.list_uses (everywhere (E.types env.now) (E.names env.now) (E.literals env.now) (E.written env.now)) (shape_exprs exprs.now)) }
    ensures faults { OnOk result (notes.new.faults.items ≡ notes.old.faults.items ++ values.list_faults (everywhere (E.types env.now) (E.names env.now) (E.literals env.now) (E.written env.now)) (shape_exprs exprs.now)) }
{
    let members = check_exprs(env, alloc, exprs, notes)?;
    let is_unknown = is_free(is_lone_call(exprs), &members);
    let values = arguments_of(env, alloc, members)?;
    Ok(Given { values, is_unknown })
}
