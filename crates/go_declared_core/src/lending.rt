//! Faces that are lent.
ghost use Rattle.std.specs.Prelude.{◌≡◌, IfOk};
ghost use Rattle.std.specs.Option.{option_map};
ghost use Rattle.go_term_core.specs.Shapes.{shape};
ghost use Rattle.go_declared_core.specs.Faces.{face_shown, operand_shown, value_type_shown, face_variable};

use crate::face::Face;
use go_handle_core::{SignatureRef, TypeRef};
use go_operand_core::{Operand, ValueType};
use go_term_core::{Signature, TypeTerm};
use std::alloc::AllocError;

/// A type that may be there, lent.
pub(crate) fn lend_type<'a>(term: &'a Option<TypeTerm>) -> Option<TypeRef<'a>>
    ensures { result ≡ option_map shape term.now }
{
    match term {
        Some(term) => Some(TypeRef::of(term)),
        None => None,
    }
}

/// A variable of a type, as an operand.
///
/// The Go specification, "Variables" and "Address operators": a variable is addressable.
pub(crate) fn variable<'a>(term: &'a TypeTerm) -> Operand<TypeRef<'a>>
    ensures { result ≡ face_variable (shape term.now) }
{
    Operand {
        value_type: ValueType::Typed(TypeRef::of(term)),
        constant: None,
        addressable: true,
    }
}

// What type a value has, lent.
fn lend_value_type<'a>(value_type: &'a ValueType<TypeTerm>) -> ValueType<TypeRef<'a>>
    ensures { result ≡ value_type_shown value_type.now }
{
    match value_type {
        ValueType::Typed(term) => ValueType::Typed(TypeRef::of(term)),
        ValueType::UntypedInt => ValueType::UntypedInt,
        ValueType::UntypedText => ValueType::UntypedText,
        ValueType::UntypedBool => ValueType::UntypedBool,
        ValueType::Nil => ValueType::Nil,
    }
}

// An operand, lent.
fn lend_operand<'a>(operand: &'a Operand<TypeTerm>) -> Result<Operand<TypeRef<'a>>, AllocError>
    ensures { IfOk result (λ o. o ≡ operand_shown operand.now) }
{
    let constant = match &operand.constant {
        Some(constant) => Some(constant.share()?),
        None => None,
    };
    Ok(Operand {
        value_type: lend_value_type(&operand.value_type),
        constant,
        addressable: operand.addressable,
    })
}

/// A face that is held, lent. It takes no memory: a text of a constant is shared.
///
/// # Errors
///
/// `AllocError` where a text has too many owners.
pub fn lend<'a>(
    face: &'a Face<TypeTerm, Signature>,
) -> Result<Face<TypeRef<'a>, SignatureRef<'a>>, AllocError>
    ensures { IfOk result (λ f. f ≡ face_shown face.now) }
{
    match face {
        Face::Type(term) => Ok(Face::Type(lend_type(term))),
        Face::Func(signature) => Ok(Face::Func(SignatureRef::of(signature))),
        Face::Value(Some(operand)) => Ok(Face::Value(Some(lend_operand(operand)?))),
        Face::Value(None) => Ok(Face::Value(None)),
    }
}
