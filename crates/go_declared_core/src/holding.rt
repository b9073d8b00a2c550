//! Faces that are held, of lent ones.
ghost use Rattle.std.specs.Prelude.{◌≡◌, IfOk};
ghost use Rattle.std.specs.Option.{option_map};
ghost use Rattle.go_term_core.specs.Shapes.{shape, sign_of};
ghost use Rattle.go_term_core.specs.Terms.{PointerTo};
ghost use Rattle.go_handle_core.specs.Stars.{starred};
ghost use Rattle.go_declared_core.specs.Faces.{face_shown, operand_shown, value_type_shown};

use crate::face::Face;
use go_collections_core::text_core::boxed;
use go_handle_core::{SignatureRef, TypeRef};
use go_operand_core::{Operand, ValueType};
use go_term_core::{Signature, TypeTerm, copy, copy_signature};
use std::alloc::{AllocError, Global};

// The type of pointers to a type.
fn pointer_to(alloc: Global, term: TypeTerm) -> Result<TypeTerm, AllocError>
    ensures { IfOk result (λ t. shape t ≡ PointerTo (shape term)) }
{
    Ok(TypeTerm::Pointer(boxed(alloc, term)?))
}

// A type under so many stars.
fn under_stars(alloc: Global, stars: usize, term: TypeTerm) -> Result<TypeTerm, AllocError>
    ensures { IfOk result (λ t. shape t ≡ starred stars (shape term)) }
{
    let mut starred = term;
    for _star in 0..stars {
        starred = pointer_to(alloc, starred)?;
    }
    Ok(starred)
}

/// A type, as a term of its own.
pub(crate) fn hold_type(alloc: Global, lent: &TypeRef<'_>) -> Result<TypeTerm, AllocError>
    ensures { IfOk result (λ t. shape t ≡ lent.now) }
{
    let parts = lent.parts();
    let term = copy(alloc, parts.term)?;
    under_stars(alloc, parts.stars, term)
}

// A type that may be there, as a term of its own.
fn hold_some(alloc: Global, lent: &Option<TypeRef<'_>>) -> Result<Option<TypeTerm>, AllocError>
    ensures { IfOk result (λ t. option_map shape t ≡ lent.now) }
{
    match lent {
        Some(lent) => Ok(Some(hold_type(alloc, lent)?)),
        None => Ok(None),
    }
}

// What type a value has, held.
fn hold_value_type(
    alloc: Global,
    lent: &ValueType<TypeRef<'_>>,
) -> Result<ValueType<TypeTerm>, AllocError>
    ensures { IfOk result (λ t. value_type_shown t ≡ lent.now) }
{
    match lent {
        ValueType::Typed(lent) => Ok(ValueType::Typed(hold_type(alloc, lent)?)),
        ValueType::UntypedInt => Ok(ValueType::UntypedInt),
        ValueType::UntypedText => Ok(ValueType::UntypedText),
        ValueType::UntypedBool => Ok(ValueType::UntypedBool),
        ValueType::Nil => Ok(ValueType::Nil),
    }
}

// An operand, held.
fn hold_operand(alloc: Global, lent: &Operand<TypeRef<'_>>) -> Result<Operand<TypeTerm>, AllocError>
    ensures { IfOk result (λ o. operand_shown o ≡ lent.now) }
{
    let constant = match &lent.constant {
        Some(constant) => Some(constant.share()?),
        None => None,
    };
    let value_type = hold_value_type(alloc, &lent.value_type)?;
    Ok(Operand {
        value_type,
        constant,
        addressable: lent.addressable,
    })
}

/// A lent face with terms of its own, which outlive what was lent: to be published. Pointers that are lent as stars become terms, and the text of
/// a constant is shared.
///
/// # Errors
///
/// `AllocError` where memory is wanting.
pub fn hold(
    alloc: Global,
    lent: &Face<TypeRef<'_>, SignatureRef<'_>>,
) -> Result<Face<TypeTerm, Signature>, AllocError>
    ensures { IfOk result (λ f. face_shown f ≡ lent.now) }
{
    match lent {
        Face::Type(lent) => Ok(Face::Type(hold_some(alloc, lent)?)),
        Face::Func(lent) => Ok(Face::Func(copy_signature(alloc, lent.lent())?)),
        Face::Value(Some(lent)) => Ok(Face::Value(Some(hold_operand(alloc, lent)?))),
        Face::Value(None) => Ok(Face::Value(None)),
    }
}
