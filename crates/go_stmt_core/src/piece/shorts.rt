//! Short declarations.
ghost use Rattle.std.specs.Prelude.{◌≡◌, ◌++◌, [], IfOk, OnOk, map};
ghost use Rattle.go_tree_nodes.specs.Shapes.{shape_exprs};
ghost use Rattle.go_tree_nodes.specs.TypeShapes.{shape_idents};
ghost use Rattle.go_expr_core.specs.scope_stack.Blocks.{list_name};
ghost use Rattle.go_expr_core.specs.local_core.Outline.{idents};
ghost use Rattle.go_expr_core.specs.Looks.{everywhere};
ghost use Rattle.go_stmt_core.specs.piece.Values as values;
ghost use Rattle.go_stmt_core.specs.piece.Targets as targets;
ghost use Rattle.go_stmt_core.specs.piece.Statements as statements;

use crate::piece::given::check_list;
use crate::piece::starts::names_start;
use crate::piece::types::variables;
use crate::statement::{Target, assignment_rule, short_types, target_of};
use go_expr_core::denote_core::{Stand, name_answer};
use go_expr_core::operand_core::Operand;
use go_expr_core::scope_stack::NameList;
use go_expr_core::{Exprs, Notes, note_fault};
use go_tree_nodes::{Ident, Idents};
use std::alloc::{AllocError, Global};

// Whether the first of some names is the first of its block.
fn flag_of(flags: &[bool]) -> bool
    ensures { result ≡ targets.flag_of flags.now }
{
    match flags.first() {
        None => false,
        Some(flag) => *flag,
    }
}

// The flags of the others.
fn flags_behind(flags: &[bool]) -> &[bool]
    ensures { result.now ≡ targets.flags_behind flags.now }
{
    match flags.split_first() {
        None => flags,
        Some((_, more)) => more,
    }
}

// A name that its block has.
fn old_target<E: Exprs>(
    env: &E,
    alloc: Global,
    ident: &Ident,
) -> Result<Target<E::Type>, AllocError>
    ensures { IfOk result (λ t. t ≡ targets.old_target (everywhere (E.types env.now) (E.names env.now) (E.literals env.now) (E.written env.now)) ident.now) }
{
    let answer = name_answer(env, alloc, Stand::Value, ident.name.as_str())?;
    Ok(target_of(answer.denoted, true))
}

// A name left of `:=`, behind those that were seen.
fn short_target<'a, E: Exprs>(
    env: &E,
    alloc: Global,
    is_first: bool,
    seen: &mut NameList<'a>,
    ident: &'a Ident,
) -> Result<Target<E::Type>, AllocError>
    ensures target { IfOk result (λ t. t ≡ targets.short_target (everywhere (E.types env.now) (E.names env.now) (E.literals env.now) (E.written env.now)) is_first seen.old ident.now) }
    ensures seen { OnOk result (seen.new ≡ list_name seen.old ident.now.name) }
{
    let name = ident.name.as_str();
    let is_new = match seen.add(name) {
        Ok(is_new) => is_new,
        Err(_) => return Err(AllocError),
    };
    if name == "_" {
        return Ok(Target::Blank);
    }
    if is_first || !is_new {
        return Ok(Target::New);
    }
    old_target(env, alloc, ident)
}

// The names left of `:=`.
fn short_targets<E: Exprs>(
    env: &E,
    alloc: Global,
    names: &Idents,
    firsts: &[bool],
) -> Result<Vec<Target<E::Type>>, AllocError>
    ensures { IfOk result (λ ts. ts.items ≡ targets.short_targets (everywhere (E.types env.now) (E.names env.now) (E.literals env.now) (E.written env.now)) firsts.now [] (idents (shape_idents names.now))) }
{
    let mut seen = NameList::new(alloc);
    let mut all = Vec::new(alloc);
    let first = short_target(env, alloc, flag_of(firsts), &mut seen, &names.first)?;
    all.push(first)?;
    let mut flags = flags_behind(firsts);
    for next in &names.more {
        let target = short_target(env, alloc, flag_of(flags), &mut seen, &next.ident)?;
        all.push(target)?;
        flags = flags_behind(flags);
    }
    Ok(all)
}

/// Notes what a short declaration has and breaks, and answers what each of its names stands for afterwards: a variable, or none where it
/// has no type.
///
/// `firsts` tells which of the names are the first of their block: these are declared. A name that stands to its left already is judged
/// as if it were declared once more; another is assigned to, as what it stands for at its place, and keeps its type. Y4 lies at the
/// first name. The Go specification, "Short variable declarations".
///
/// # Errors
///
/// `AllocError` where memory is wanting; then some may be noted.
pub fn check_short<E: Exprs>(
    env: &E,
    alloc: Global,
    names: &Idents,
    exprs: &go_tree_nodes::Exprs,
    firsts: &[bool],
    notes: &mut Notes<E::Decl, E::Path>,
) -> Result<Vec<Option<Operand<E::Type>>>, AllocError>
    ensures values { IfOk result (λ vs. vs.items ≡ map values.variable (statements.short_name_types (everywhere (E.types env.now) (E.names env.now) (E.literals env.now) (E.written env.now)) firsts.now (shape_idents names.now) (shape_exprs exprs.now))) }
    ensures uses { OnOk result (notes.new.uses.items ≡ notes.old.uses.items ++ values.list_uses (everywhere (E.types env.now) (E.names env.now) (E.literals env.now) (E.written env.now)) (shape_exprs exprs.now)) }
    ensures faults { OnOk result (notes.new.faults.items ≡ notes.old.faults.items ++ statements.short_piece_faults (everywhere (E.types env.now) (E.names env.now) (E.literals env.now) (E.written env.now)) firsts.now (shape_idents names.now) (shape_exprs exprs.now)) }
{
    let given = check_list(env, alloc, exprs, notes)?;
    let targets = short_targets(env, alloc, names, firsts)?;
    let rule = assignment_rule(env, alloc, &targets, given.is_unknown, &given.values)?;
    note_fault(&mut notes.faults, names_start(names), rule)?;
    let types = short_types(env, alloc, &targets, &given.values)?;
    variables(alloc, types)
}
