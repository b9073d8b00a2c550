//! Which rules a piece breaks, judged anew.
ghost use Rattle.std.specs.Prelude.{◌≡◌, ◌++◌, true, IfOk, IsTrue, OnOk};
ghost use Rattle.go_tree_nodes.specs.Shapes.{shape_simple, shape_value_spec};
ghost use Rattle.go_stmt_core.specs.expr_core.Looks.{everywhere};
ghost use Rattle.go_stmt_core.specs.piece.Specifications.{spec_uses};
ghost use Rattle.go_stmt_core.specs.piece.Statements.{simple_faults, simple_uses};
ghost use Rattle.go_judge_core.specs.Breaking.{HasFault, HasRefusal, IsBroken, IsNoted, IsRefusedAt, faults_of, spec_faults_in, uses_of};

use crate::locals::declares;
use crate::pieces::Piece;
use go_complete_core::report_core::HeldLocal;
use go_names_core::local_core::Fault;
use go_stmt_core::denote_core::Outcome;
use go_stmt_core::expr_core::{Exprs, Notes, Use};
use go_stmt_core::piece::{
    check_condition, check_outer_spec, check_returned, check_short, check_simple, check_spec,
};
use go_tree_nodes::text_core::{Rule, add};
use go_tree_nodes::{Definition, Simple, ValueKind, ValueSpec};
use std::alloc::{AllocError, Global};

// Which names of a short declaration are new: those of which something is kept as a local.
fn news_in(
    alloc: Global,
    kept: &[HeldLocal],
    definition: &Definition,
) -> Result<Vec<bool>, AllocError> {
    let names = &definition.names;
    let mut news = Vec::new(alloc);
    add(&mut news, declares(kept, &names.first))?;
    for next in &names.more {
        add(&mut news, declares(kept, &next.ident))?;
    }
    Ok(news)
}

/// Which of the names are new that a piece declares with `:=`, by what is kept of the locals of its file; none of another piece.
///
/// # Errors
///
/// `AllocError` where memory is wanting.
pub(crate) fn news_of(
    alloc: Global,
    kept: &[HeldLocal],
    piece: Piece<'_>,
) -> Result<Vec<bool>, AllocError> {
    match piece {
        Piece::Simple(Simple::Define(definition)) => news_in(alloc, kept, definition),
        _ => Ok(Vec::new(alloc)),
    }
}

// Notes what a simple statement has and breaks.
fn note_simple<E: Exprs>(
    env: &E,
    alloc: Global,
    simple: &Simple,
    news: &[bool],
    notes: &mut Notes<E::Decl, E::Path>,
) -> Result<(), AllocError>
    ensures uses { OnOk result (notes.new.uses.items ≡ notes.old.uses.items ++ simple_uses (everywhere (E.types env.now) (E.names env.now) (E.literals env.now) (E.written env.now)) (shape_simple simple.now)) }
    ensures faults { OnOk result (notes.new.faults.items ≡ notes.old.faults.items ++ simple_faults (everywhere (E.types env.now) (E.names env.now) (E.literals env.now) (E.written env.now)) news.now (shape_simple simple.now)) }
{
    match simple {
        Simple::Define(definition) => {
            let names = &definition.names;
            check_short(env, alloc, names, &definition.values, news, notes)?;
            Ok(())
        }
        Simple::Expr(_) => check_simple(env, alloc, simple, notes),
        Simple::Step(_, _, _) => check_simple(env, alloc, simple, notes),
        Simple::Assign(_) => check_simple(env, alloc, simple, notes),
        Simple::Update(_) => check_simple(env, alloc, simple, notes),
    }
}

// Notes what a specification has and breaks, in a function or outside.
fn note_spec<E: Exprs>(
    env: &E,
    alloc: Global,
    is_inside: bool,
    kind: ValueKind,
    spec: &ValueSpec,
    notes: &mut Notes<E::Decl, E::Path>,
) -> Result<(), AllocError>
    ensures uses { OnOk result (notes.new.uses.items ≡ notes.old.uses.items ++ spec_uses (everywhere (E.types env.now) (E.names env.now) (E.literals env.now) (E.written env.now)) (shape_value_spec spec.now)) }
    ensures faults { OnOk result (notes.new.faults.items ≡ notes.old.faults.items ++ spec_faults_in (everywhere (E.types env.now) (E.names env.now) (E.literals env.now) (E.written env.now)) is_inside kind (shape_value_spec spec.now)) }
{
    if is_inside {
        check_spec(env, alloc, kind, spec, notes)?;
        return Ok(());
    }
    check_outer_spec(env, alloc, kind, spec, notes)
}

// Notes what a piece has and breaks at its place, in a function with results of these types, which have names or not, or outside functions; `news` says which of
// the names are new that it declares with `:=`.
fn note_piece<E: Exprs>(
    env: &E,
    alloc: Global,
    piece: Piece<'_>,
    is_inside: bool,
    news: &[bool],
    results: &[Option<E::Type>],
    has_names: bool,
    notes: &mut Notes<E::Decl, E::Path>,
) -> Result<(), AllocError>
    ensures uses { OnOk result (notes.new.uses.items ≡ notes.old.uses.items ++ uses_of (everywhere (E.types env.now) (E.names env.now) (E.literals env.now) (E.written env.now)) piece.entry) }
    ensures faults { OnOk result (notes.new.faults.items ≡ notes.old.faults.items ++ faults_of (everywhere (E.types env.now) (E.names env.now) (E.literals env.now) (E.written env.now)) is_inside news.now results.now has_names piece.entry) }
{
    match piece {
        Piece::Simple(simple) => note_simple(env, alloc, simple, news, notes),
        Piece::Condition(condition) => check_condition(env, alloc, condition, notes),
        Piece::Spec(kind, spec) => note_spec(env, alloc, is_inside, kind, spec, notes),
        Piece::Return(place, values) => {
            check_returned(env, alloc, place, values, results, has_names, notes)
        }
    }
}

// Whether two offsets are one, and two rules.
fn is_same(at: usize, offset: usize, found: Rule, rule: Rule) -> bool
    ensures { IsTrue result → (at ≡ offset) × (found ≡ rule) }
{
    if at != offset {
        return false;
    }
    found == rule
}

// Whether a fault of a rule lies at an offset.
fn has_fault(faults: &[Fault], offset: usize, rule: Rule) -> bool
    ensures { result ≡ true → HasFault faults.now offset rule }
{
    for fault in faults {
        if is_same(fault.offset, offset, fault.rule, rule) {
            return true;
        }
    }
    false
}

// Whether what stands at an offset is refused by a rule.
fn is_refused<D: Drop, P: Drop>(used: &Use<D, P>, offset: usize, rule: Rule) -> bool
    ensures { result ≡ true → IsRefusedAt used.now offset rule }
{
    match &used.outcome {
        Outcome::Refused(found) => is_same(used.offset, offset, *found, rule),
        Outcome::Declared(_) => false,
        Outcome::Selected(_, _) => false,
    }
}

// Whether one of some occurrences stands at an offset and is refused by a rule.
fn has_refusal<D: Drop, P: Drop>(uses: &[Use<D, P>], offset: usize, rule: Rule) -> bool
    ensures { result ≡ true → HasRefusal uses.now offset rule }
{
    for used in uses {
        if is_refused(used, offset, rule) {
            return true;
        }
    }
    false
}

// Whether a rule is among what is noted at an offset, as a fault or as an outcome.
fn has_rule<D: Drop, P: Drop>(notes: &Notes<D, P>, offset: usize, rule: Rule) -> bool
    ensures { result ≡ true → IsNoted notes.now.uses.items notes.now.faults.items offset rule }
{
    let faults = notes.faults.as_slice();
    if has_fault(faults, offset, rule) {
        return true;
    }
    let uses = notes.uses.as_slice();
    has_refusal(uses, offset, rule)
}

/// Whether a piece breaks a rule at an offset at its place, in a function with results of these types, which have names or not, or outside functions; `news` says
/// which of the names are new that it declares with `:=`.
///
/// # Errors
///
/// `AllocError` where memory is wanting.
pub(crate) fn is_broken<E: Exprs>(
    env: &E,
    alloc: Global,
    piece: Piece<'_>,
    is_inside: bool,
    news: &[bool],
    results: &[Option<E::Type>],
    has_names: bool,
    offset: usize,
    rule: Rule,
) -> Result<bool, AllocError>
    ensures { IfOk result (λ holds. holds ≡ true → IsBroken (everywhere (E.types env.now) (E.names env.now) (E.literals env.now) (E.written env.now)) piece.entry offset rule) }
{
    let uses = Vec::new(alloc);
    let faults = Vec::new(alloc);
    let mut notes = Notes { uses, faults };
    note_piece(
        env, alloc, piece, is_inside, news, results, has_names, &mut notes,
    )?;
    Ok(has_rule(&notes, offset, rule))
}
