//! The signature of the method of `error`, and where members are declared.
ghost use Rattle.std.specs.Prelude.{◌≡◌, IfOk};
ghost use Rattle.go_term_core.specs.Shapes.{sign_of};
ghost use Rattle.go_mset_core.specs.Implementing.{error_sign};
ghost use Rattle.go_mset_core.specs.embed_core.OwnersShown.{found_shown};
ghost use Rattle.go_handle_core.specs.Declarations.{site_shown, declaration_found};

use crate::decls::DeclSite;
use go_mset_core::select_core::Member;
use go_term_core::{Basic, Params, Signature, TypeTerm};
use std::alloc::{AllocError, Global};

/// The signature of the method `Error` of the predeclared type `error`: no parameter, and a result of type `string`.
///
/// # Errors
///
/// `AllocError` where memory is wanting.
pub(crate) fn error_signature(alloc: Global) -> Result<Signature, AllocError>
    ensures { IfOk result (λ g. sign_of g ≡ error_sign) }
{
    let mut lines: Vec<usize> = Vec::new(alloc);
    lines.push(0)?;
    let mut terms = Vec::new(alloc);
    terms.push(TypeTerm::Basic(Basic::Text))?;
    Ok(Signature {
        params: Params {
            lines: Vec::new(alloc),
            terms: Vec::new(alloc),
        },
        results: Params { lines, terms },
    })
}

/// Where a member is declared.
pub(crate) fn member_site<'a>(member: Member<'a>) -> DeclSite<'a>
    ensures { site_shown result ≡ declaration_found (found_shown member.entry) }
{
    match member {
        Member::Field(path, field) => DeclSite::InFile(path, field.field.place),
        Member::Method(path, method) => DeclSite::InFile(path, method.place),
        Member::InterfaceMethod(path, method) => DeclSite::InFile(path, method.place),
        Member::ErrorMethod => DeclSite::ErrorMethod,
    }
}
