//! Which underlying types are identical.
ghost use Rattle.std.specs.Prelude.{◌≡◌, ◌↔◌, ◌∷◌, [], true, false, IsTrue, codes};
ghost use Rattle.std.specs.Str.{bytes_eq};
ghost use Rattle.go_term_core.specs.Shapes.{shape, sign_of, method_shapes};
ghost use Rattle.go_term_core.specs.Terms.{Predeclared, ErrorType, sign_params, sign_results};
ghost use Rattle.go_term_core.specs.declared.term.Basic.TheVariants as basics;
ghost use Rattle.go_table_core.specs.Underlying.{text_sign, IsErrorInterface, IdenticalUnder};
ghost use Rattle.go_table_core.specs.mirrors.Meeting.{AreErrors, MeetsError};

use go_collections_core::text_core::Name;
use go_term_core::{Basic, Method, Signature, TypeTerm, identical, identical_but_for_tags};

/// Whether a type is `string`.
fn is_text(term: &TypeTerm) -> bool
    ensures { IsTrue result ↔ (shape term.now ≡ Predeclared basics.Text) }
{
    match term {
        TypeTerm::Basic(basic) => *basic == Basic::Text,
        TypeTerm::NoType
        | TypeTerm::Error
        | TypeTerm::Defined(_)
        | TypeTerm::Pointer(_)
        | TypeTerm::Struct(_, _, _)
        | TypeTerm::Interface(_, _) => false,
    }
}

/// Whether a signature has no parameter.
fn has_no_param(signature: &Signature) -> bool
    ensures { IsTrue result ↔ (sign_params (sign_of signature.now) ≡ []) }
{
    signature.param_count() == 0
}

/// Whether a signature has one result, which is of type `string`.
fn has_text_alone(signature: &Signature) -> bool
    ensures { IsTrue result ↔ (sign_results (sign_of signature.now) ≡ Predeclared basics.Text ∷ []) }
{
    if signature.result_count() != 1 {
        return false;
    }
    match signature.result_at(0) {
        Some(term) => is_text(term),
        None => false,
    }
}

/// Whether a signature has the parameters and the results of the method of `error`.
fn has_types_of_error(signature: &Signature) -> bool
    ensures { IsTrue result ↔ ((sign_params (sign_of signature.now) ≡ []) × (sign_results (sign_of signature.now) ≡ Predeclared basics.Text ∷ [])) }
{
    has_no_param(signature) && has_text_alone(signature)
}

/// Whether a name is spelled `Error`.
fn is_spelled_error(name: &Name) -> bool
    ensures { result ≡ bytes_eq name.now (codes "Error") }
{
    name.as_str() == "Error"
}

/// Whether a method of an interface type has the name and the types of the method of `error`.
fn is_error(method: &Method) -> bool
    ensures { IsTrue result ↔ (IsTrue (bytes_eq method.now.name (codes "Error")) × ((sign_params (sign_of method.now.signature) ≡ []) × (sign_results (sign_of method.now.signature) ≡ Predeclared basics.Text ∷ []))) }
{
    is_spelled_error(&method.name) && has_types_of_error(&method.signature)
}

/// Whether `Error() string` is the only one of the methods of an interface type.
fn are_errors(methods: &Vec<Method>) -> bool
    ensures { IsTrue result ↔ AreErrors (method_shapes methods.now.items) }
{
    if methods.len() != 1 {
        return false;
    }
    is_error(&methods[0])
}

/// Whether a type is `error`.
fn is_error_type(term: &TypeTerm) -> bool
    ensures { IsTrue result ↔ (shape term.now ≡ ErrorType) }
{
    match term {
        TypeTerm::Error => true,
        TypeTerm::NoType
        | TypeTerm::Basic(_)
        | TypeTerm::Defined(_)
        | TypeTerm::Pointer(_)
        | TypeTerm::Struct(_, _, _)
        | TypeTerm::Interface(_, _) => false,
    }
}

/// Whether a type is an interface type with the method `Error() string` alone.
fn is_error_interface(term: &TypeTerm) -> bool
    ensures { IsTrue result ↔ IsErrorInterface (shape term.now) }
{
    match term {
        TypeTerm::Interface(_, methods) => are_errors(methods),
        TypeTerm::NoType
        | TypeTerm::Basic(_)
        | TypeTerm::Error
        | TypeTerm::Defined(_)
        | TypeTerm::Pointer(_)
        | TypeTerm::Struct(_, _, _) => false,
    }
}

/// Whether one of two underlying types is `error`, and the other an interface type with its method alone.
fn meets_error(a: &TypeTerm, b: &TypeTerm) -> bool
    ensures { IsTrue result ↔ MeetsError (shape a.now) (shape b.now) }
{
    (is_error_type(a) && is_error_interface(b)) || (is_error_type(b) && is_error_interface(a))
}

/// Whether two underlying types are identical. It takes no memory.
///
/// They are where they are identical as they stand; and the underlying type of `error` is the interface type with the one method
/// `Error() string`. The Go specification, "Underlying types", "Errors".
pub fn identical_under(a: &TypeTerm, b: &TypeTerm) -> bool
    ensures { IsTrue result ↔ IdenticalUnder true (shape a.now) (shape b.now) }
{
    if identical(a, b) {
        return true;
    }
    meets_error(a, b)
}

/// Whether two underlying types are identical, were it not for tags of fields at any depth; `error` counts as for [`identical_under`]. It
/// takes no memory. The Go specification, "Conversions": "ignoring struct tags".
pub fn identical_under_but_for_tags(a: &TypeTerm, b: &TypeTerm) -> bool
    ensures { IsTrue result ↔ IdenticalUnder false (shape a.now) (shape b.now) }
{
    if identical_but_for_tags(a, b) {
        return true;
    }
    meets_error(a, b)
}
