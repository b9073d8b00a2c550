//! Handles once more.
ghost use Rattle.std.specs.Prelude.{◌≡◌, IfOk};

use go_declared_core::Face;
use go_declared_core::handle_core::{SignatureRef, TypeRef};
use go_expr_core::operand_core::{Operand, ValueType};
use std::alloc::AllocError;

// The type of a value once more.
fn value_type_again<'p>(value_type: &ValueType<TypeRef<'p>>) -> ValueType<TypeRef<'p>>
    ensures { result ≡ value_type.now }
{
    match value_type {
        ValueType::Typed(t) => ValueType::Typed(t.again()),
        ValueType::UntypedInt => ValueType::UntypedInt,
        ValueType::UntypedText => ValueType::UntypedText,
        ValueType::UntypedBool => ValueType::UntypedBool,
        ValueType::Nil => ValueType::Nil,
    }
}

// The same operand once more. Errors: want of memory, where a constant text has too many owners.
fn operand_again<'p>(operand: &Operand<TypeRef<'p>>) -> Result<Operand<TypeRef<'p>>, AllocError>
    ensures { IfOk result (λ o. o ≡ operand.now) }
{
    let constant = match &operand.constant {
        Some(constant) => Some(constant.share()?),
        None => None,
    };
    Ok(Operand {
        value_type: value_type_again(&operand.value_type),
        constant,
        addressable: operand.addressable,
    })
}

/// The operand that a constant or a variable is once more: none where it has no type.
///
/// # Errors
///
/// `AllocError` where a constant text has too many owners.
pub(crate) fn value_again<'p>(
    value: &Option<Operand<TypeRef<'p>>>,
) -> Result<Option<Operand<TypeRef<'p>>>, AllocError>
    ensures { IfOk result (λ v. v ≡ value.now) }
{
    match value {
        Some(operand) => Ok(Some(operand_again(operand)?)),
        None => Ok(None),
    }
}

// The type of a type declaration once more: none where what is declared is no type.
fn type_again<'p>(t: &Option<TypeRef<'p>>) -> Option<TypeRef<'p>>
    ensures { result ≡ t.now }
{
    match t {
        Some(t) => Some(t.again()),
        None => None,
    }
}

/// The same face once more.
///
/// # Errors
///
/// `AllocError` where a constant text has too many owners.
pub(crate) fn face_again<'p>(
    face: &Face<TypeRef<'p>, SignatureRef<'p>>,
) -> Result<Face<TypeRef<'p>, SignatureRef<'p>>, AllocError>
    ensures { IfOk result (λ f. f ≡ face.now) }
{
    match face {
        Face::Type(t) => Ok(Face::Type(type_again(t))),
        Face::Func(signature) => Ok(Face::Func(signature.again())),
        Face::Value(value) => Ok(Face::Value(value_again(value)?)),
    }
}
