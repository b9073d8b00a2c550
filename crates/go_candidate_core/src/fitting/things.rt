//! What a declaration is, as far as it matters where its name stands.
ghost use Rattle.std.specs.Prelude.{◌≡◌, Contains, IfOk, MatchOption, Some, None};
ghost use Rattle.go_candidate_core.specs.context.Alone as alone;
ghost use Rattle.go_summary_core.specs.declared_core.Packages.{face_in, package_in};
ghost use Rattle.go_summary_core.specs.Views.{faces_told};
ghost use Rattle.go_candidate_core.specs.fitting.Fitting as fitting;

use crate::context::Thing;
use go_expr_core::denote_core::Stand;
use go_summary_core::declared_core::Face;
use go_summary_core::handle_core::{SignatureRef, TypeRef};
use go_summary_core::{ReachedSummaries, Summary};
use go_table_core::path_core::ImportPath;
use go_term_core::decl_core::DeclKey;
use std::alloc::AllocError;

/// What a declaration is that is this.
pub(crate) fn thing_of_face(face: &Option<Face<TypeRef<'_>, SignatureRef<'_>>>) -> Thing
    ensures { result ≡ fitting.thing_of_face face.now }
{
    match face {
        None => Thing::Value,
        Some(Face::Type(_)) => Thing::Type,
        Some(Face::Func(_)) => Thing::Func,
        Some(Face::Value(_)) => Thing::Value,
    }
}

/// Whether a thing may stand so.
pub(crate) fn fits(stand: Stand, thing: Thing) -> bool
    ensures { result ≡ alone.fits stand thing }
{
    match thing {
        Thing::Package => match stand {
            Stand::TypeDot | Stand::BeforeDot => true,
            Stand::Type | Stand::Value | Stand::Callee => false,
        },
        Thing::Type => match stand {
            Stand::Type | Stand::Callee => true,
            Stand::TypeDot | Stand::Value | Stand::BeforeDot => false,
        },
        Thing::Func => match stand {
            Stand::Callee => true,
            Stand::Type | Stand::TypeDot | Stand::Value | Stand::BeforeDot => false,
        },
        Thing::Value => match stand {
            Stand::Value | Stand::BeforeDot => true,
            Stand::Type | Stand::TypeDot | Stand::Callee => false,
        },
    }
}

/// What the package of a path tells, among what packages tell; `None` where none of them has the path.
pub(crate) fn told_by<'a>(reached: &'a ReachedSummaries, path: &ImportPath) -> Option<&'a Summary>
    ensures { MatchOption result (package_in (faces_told reached.now) path.now ≡ None) (λ s. Contains reached.now s.now × (package_in (faces_told reached.now) path.now ≡ Some s.now.faces)) }
{
    for number in 0..reached.len() {
        match reached.get(number) {
            Some(summary) => {
                if summary.faces().path().is_same(path) {
                    return Some(summary);
                }
            }
            None => unreachable!(),
        }
    }
    None
}

/// Whether a declaration that a dot import binds may stand so.
///
/// # Errors
///
/// `AllocError` where memory is wanting.
pub(crate) fn exported_fits(
    reached: &ReachedSummaries,
    key: &DeclKey,
    stand: Stand,
) -> Result<bool, AllocError>
    ensures { IfOk result (λ b. b ≡ alone.fits stand (fitting.thing_of_face (face_in (faces_told reached.now) key.now.path key.now.decl))) }
{
    match told_by(reached, &key.path) {
        None => Ok(fits(stand, Thing::Value)),
        Some(summary) => {
            let face = summary.faces().face(key.decl)?;
            Ok(fits(stand, thing_of_face(&face)))
        }
    }
}
