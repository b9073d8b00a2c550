//! The pieces of a function as they stand in its tree, and their check in any environment.
ghost use Rattle.std.specs.Prelude.{◌≡◌, ◌++◌, IfOk, OnOk};
ghost use Rattle.go_expr_core.specs.Looks.{everywhere};
ghost use Rattle.go_stmt_core.specs.piece.Pieces.{piece_uses};
ghost use Rattle.go_body_core.specs.mirrors.PieceTrees.{faults_of, piece_of, values_of};

use go_expr_core::{Exprs, Notes};
use go_operand_core::Operand;
use go_stmt_core::piece::{
    check_condition, check_header, check_returned, check_short, check_simple, check_spec,
};
use go_text_core::Span;
use go_tree_nodes::{Definition, Expr, Receiver, Signature, Simple, ValueKind, ValueSpec};
use std::alloc::{AllocError, Global};

/// A piece of a function, as it stands in its tree.
#[derive(Clone, Copy)]
pub(crate) enum PieceTree<'t> {
    /// The function's receiver, parameters and results.
    Header(&'t Option<Receiver>, &'t Signature),
    /// A specification of constants or variables.
    Spec(ValueKind, &'t ValueSpec),
    /// A short declaration.
    Short(&'t Definition),
    /// A statement that declares nothing and may stand in a header.
    Simple(&'t Simple),
    /// A condition.
    Condition(&'t Expr),
    /// What is returned, and the place of its `return`.
    Given(Span, &'t Option<Box<go_tree_nodes::Exprs>>),
}

/// Notes what a piece has and breaks, in a function whose results have these types, and have names or not, and answers what each of
/// the names stands for that it declares. By which of the names of a short declaration are the first of their block.
pub(crate) fn check_piece<E: Exprs>(
    env: &E,
    alloc: Global,
    piece: &PieceTree<'_>,
    firsts: &[bool],
    results: &[Option<E::Type>],
    has_names: bool,
    notes: &mut Notes<E::Decl, E::Path>,
) -> Result<Vec<Option<Operand<E::Type>>>, AllocError>
    ensures values { IfOk result (λ vs. vs.items ≡ values_of (everywhere (E.types env.now) (E.names env.now) (E.literals env.now) (E.written env.now)) firsts.now piece.now) }
    ensures uses { OnOk result (notes.new.uses.items ≡ notes.old.uses.items ++ piece_uses (everywhere (E.types env.now) (E.names env.now) (E.literals env.now) (E.written env.now)) (piece_of piece.now)) }
    ensures faults { OnOk result (notes.new.faults.items ≡ notes.old.faults.items ++ faults_of (everywhere (E.types env.now) (E.names env.now) (E.literals env.now) (E.written env.now)) results.now has_names firsts.now piece.now) }
{
    match piece {
        PieceTree::Header(receiver, signature) => {
            check_header(env, alloc, receiver, signature, notes)
        }
        PieceTree::Spec(kind, spec) => check_spec(env, alloc, *kind, spec, notes),
        PieceTree::Short(definition) => {
            let values = &definition.values;
            check_short(env, alloc, &definition.names, values, firsts, notes)
        }
        PieceTree::Simple(simple) => {
            check_simple(env, alloc, simple, notes)?;
            Ok(Vec::new(alloc))
        }
        PieceTree::Condition(condition) => {
            check_condition(env, alloc, condition, notes)?;
            Ok(Vec::new(alloc))
        }
        PieceTree::Given(place, values) => {
            check_returned(env, alloc, *place, values, results, has_names, notes)?;
            Ok(Vec::new(alloc))
        }
    }
}
