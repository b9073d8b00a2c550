//! Identifiers, and names of types.
ghost use Rattle.std.specs.Prelude.{◌≡◌, ◌++◌, [], ◌∷◌, IfOk, OnOk};
ghost use Rattle.go_expr_core.specs.Looks.{everywhere};
ghost use Rattle.go_expr_core.specs.Denoting as denoting;
ghost use Rattle.go_expr_core.specs.Uses as all_uses;

use crate::looks::Exprs;
use crate::notes::note_answer;
use crate::places::place_role;
use crate::things::Use;
use go_denote_core::composite::literal_type;
use go_denote_core::{Denoted, Dot, Stand, dot_of, name_answer, selector_answer};
use go_tree_core::Role;
use go_tree_nodes::{Ident, TypeName, Usage};
use std::alloc::{AllocError, Global};

/// Notes what an identifier has at a place, and answers what it denotes.
pub(crate) fn check_ident<E: Exprs>(
    env: &E,
    alloc: Global,
    place: Stand,
    ident: &Ident,
    uses: &mut Vec<Use<E::Decl, E::Path>>,
) -> Result<Denoted<E::Type, E::Signature, E::Decl>, AllocError>
    ensures denoted { IfOk result (λ d. d ≡ (denoting.ident_answer (everywhere (E.types env.now) (E.names env.now) (E.literals env.now) (E.written env.now)) place ident.now).denoted) }
    ensures uses { OnOk result (uses.new.items ≡ uses.old.items ++ all_uses.ident_use (everywhere (E.types env.now) (E.names env.now) (E.literals env.now) (E.written env.now)) place ident.now ∷ []) }
{
    let answer = name_answer(env, alloc, place, ident.name.as_str())?;
    note_answer(uses, ident.span.start as usize, place_role(place), answer)
}

/// Notes what the identifier behind a dot has, and answers what it denotes.
pub(crate) fn check_selector<E: Exprs>(
    env: &E,
    alloc: Global,
    usage: Usage,
    dot: &Dot<E::Type, E::Decl>,
    ident: &Ident,
    uses: &mut Vec<Use<E::Decl, E::Path>>,
) -> Result<Denoted<E::Type, E::Signature, E::Decl>, AllocError>
    ensures denoted { IfOk result (λ d. d ≡ (denoting.behind_answer (everywhere (E.types env.now) (E.names env.now) (E.literals env.now) (E.written env.now)) usage dot.now ident.now).denoted) }
    ensures uses { OnOk result (uses.new.items ≡ uses.old.items ++ all_uses.behind_use (everywhere (E.types env.now) (E.names env.now) (E.literals env.now) (E.written env.now)) usage dot.now ident.now ∷ []) }
{
    let answer = selector_answer(env, alloc, usage, dot, ident.name.as_str())?;
    note_answer(
        uses,
        ident.span.start as usize,
        Role::Selector(usage),
        answer,
    )
}

/// Notes what the identifiers of a type's name have, in order of their places, and answers the type that it denotes: none where it
/// denotes none.
///
/// The Go specification, "Types" and "Qualified identifiers".
///
/// # Errors
///
/// [`AllocError`] where memory is wanting; then some may be noted.
pub fn check_type_name<E: Exprs>(
    env: &E,
    alloc: Global,
    name: &TypeName,
    uses: &mut Vec<Use<E::Decl, E::Path>>,
) -> Result<Option<E::Type>, AllocError>
    ensures t { IfOk result (λ t. t ≡ denoting.named_type (everywhere (E.types env.now) (E.names env.now) (E.literals env.now) (E.written env.now)) name.now) }
    ensures uses { OnOk result (uses.new.items ≡ uses.old.items ++ all_uses.type_name_uses (everywhere (E.types env.now) (E.names env.now) (E.literals env.now) (E.written env.now)) name.now) }
{
    match name {
        TypeName::Plain(ident) => {
            let denoted = check_ident(env, alloc, Stand::Type, ident, uses)?;
            Ok(literal_type(denoted))
        }
        TypeName::Qualified(package, _, ident) => {
            let left = check_ident(env, alloc, Stand::TypeDot, package, uses)?;
            let dot = dot_of(true, left);
            let denoted = check_selector(env, alloc, Usage::Type, &dot, ident, uses)?;
            Ok(literal_type(denoted))
        }
    }
}
