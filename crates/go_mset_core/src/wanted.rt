//! The methods that an interface type asks for.
ghost use Rattle.std.specs.Prelude.{◌≡◌, ◌↔◌, ◌∷◌, [], IsTrue};
ghost use Rattle.go_term_core.specs.Identity.{SameSign};
ghost use Rattle.go_term_core.specs.Shapes.{shape, sign_of};
ghost use Rattle.go_term_core.specs.Terms.{Predeclared, sign_params, sign_results};
ghost use Rattle.go_term_core.specs.declared.term.Basic.TheVariants as basics;
ghost use Rattle.go_select_core.specs.embed_core.OwnersShown.{found_shown};
ghost use Rattle.go_mset_core.specs.MethodSets.{IsCallable};
ghost use Rattle.go_mset_core.specs.Implementing.{IsSigned, error_sign};
ghost use Rattle.go_mset_core.specs.mirrors.Asking.{sign_wanted};

use go_select_core::Member;
use go_select_core::type_core::{Basic, Signature, TypeTerm, has_same_signature};

/// The signature of a method that is asked for.
#[derive(Clone, Copy)]
pub(crate) enum Wanted<'a> {
    Signature(&'a Signature),
    /// That of the method of `error`: no parameter, and one result of type `string`.
    OfError,
}

// Whether a type is `string`.
fn is_text(term: &TypeTerm) -> bool
    ensures { IsTrue result ↔ (shape term.now ≡ Predeclared basics.Text) }
{
    match term {
        TypeTerm::Basic(basic) => *basic == Basic::Text,
        TypeTerm::NoType
        | TypeTerm::Error
        | TypeTerm::Defined(_)
        | TypeTerm::Pointer(_)
        | TypeTerm::Struct(_, _, _)
        | TypeTerm::Interface(_, _) => false,
    }
}

// Whether a signature has no parameter.
fn has_no_param(signature: &Signature) -> bool
    ensures { IsTrue result ↔ (sign_params (sign_of signature.now) ≡ []) }
{
    signature.param_count() == 0
}

// Whether a signature has one result, which is of type `string`.
fn has_text_alone(signature: &Signature) -> bool
    ensures { IsTrue result ↔ (sign_results (sign_of signature.now) ≡ Predeclared basics.Text ∷ []) }
{
    if signature.result_count() != 1 {
        return false;
    }
    match signature.result_at(0) {
        Some(term) => is_text(term),
        None => false,
    }
}

// Whether a signature has the parameters and the results of the method of `error`.
fn has_types_of_error(signature: &Signature) -> bool
    ensures { IsTrue result ↔ ((sign_params (sign_of signature.now) ≡ []) × (sign_results (sign_of signature.now) ≡ Predeclared basics.Text ∷ [])) }
{
    has_no_param(signature) && has_text_alone(signature)
}

// Whether a signature is that of the method of `error`.
fn is_of_error(signature: &Signature) -> bool
    ensures { IsTrue result ↔ (sign_of signature.now ≡ error_sign) }
{
    has_types_of_error(signature)
}

// Whether a signature is identical to that of a method that is asked for.
fn is_same(signature: &Signature, wanted: Wanted<'_>) -> bool
    ensures { IsTrue result ↔ SameSign (sign_of signature.now) (sign_wanted wanted.entry) }
{
    match wanted {
        Wanted::Signature(asked) => has_same_signature(signature, asked),
        Wanted::OfError => is_of_error(signature),
    }
}

// Whether the method of `error` has the signature that is asked for.
fn is_errors(wanted: Wanted<'_>) -> bool
    ensures { IsTrue result ↔ SameSign error_sign (sign_wanted wanted.entry) }
{
    match wanted {
        Wanted::Signature(asked) => is_of_error(asked),
        Wanted::OfError => true,
    }
}

/// Whether a member is a method that needs no pointer or has one.
pub(crate) fn is_callable(member: Member<'_>, passes: bool) -> bool
    ensures { IsTrue result ↔ IsCallable (found_shown member.entry) passes }
{
    match member {
        Member::Field(_, _) => false,
        Member::Method(_, method) => passes || !method.pointer,
        Member::InterfaceMethod(_, _) => true,
        Member::ErrorMethod => true,
    }
}

// Whether a member is a method of the signature that is asked for.
fn is_signed(member: Member<'_>, wanted: Wanted<'_>) -> bool
    ensures { IsTrue result ↔ IsSigned (found_shown member.entry) (sign_wanted wanted.entry) }
{
    match member {
        Member::Field(_, _) => false,
        Member::Method(_, method) => is_same(&method.signature, wanted),
        Member::InterfaceMethod(_, method) => is_same(&method.signature, wanted),
        Member::ErrorMethod => is_errors(wanted),
    }
}

/// Whether a member is a method that needs no pointer or has one, with the signature that is asked for.
pub(crate) fn is_wanted(member: Member<'_>, passes: bool, wanted: Wanted<'_>) -> bool
    ensures { IsTrue result ↔ (IsCallable (found_shown member.entry) passes × IsSigned (found_shown member.entry) (sign_wanted wanted.entry)) }
{
    is_callable(member, passes) && is_signed(member, wanted)
}
