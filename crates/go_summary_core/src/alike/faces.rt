//! Equality of faces.
ghost use Rattle.std.specs.Prelude.{◌≡◌, ◌↔◌, IsTrue, map, option_map};
ghost use Rattle.go_term_core.specs.Shapes.{shape};
ghost use Rattle.go_declared_core.specs.Faces.{face_shown, operand_shown, value_type_shown};
ghost use Rattle.go_declared_core.specs.Held.{declared_shown};

use crate::alike::terms::{equal_signature, equal_term};
use go_declared_core::{DeclaredFace, Face, PackageFaces};
use go_operand_core::constant_core::Constant;
use go_operand_core::{Operand, ValueType};
use go_term_core::{Signature, TypeTerm};

/// Whether two constants are the same. A text is compared by its bytes.
fn is_same_constant(one: &Constant, other: &Constant) -> bool
    ensures { IsTrue result ↔ (one.now ≡ other.now) }
{
    match (one, other) {
        (Constant::Unknown, Constant::Unknown) => true,
        (Constant::Int(z), Constant::Int(y)) => *z == *y,
        (Constant::Bool(b), Constant::Bool(c)) => *b == *c,
        (Constant::Text(text), Constant::Text(bytes)) => text.is_same(bytes),
        _ => false,
    }
}

/// Whether two values are the same constant, or neither is one.
fn is_same_value(one: &Option<Constant>, other: &Option<Constant>) -> bool
    ensures { IsTrue result ↔ (one.now ≡ other.now) }
{
    match (one, other) {
        (Some(one), Some(other)) => is_same_constant(one, other),
        (None, None) => true,
        (Some(_), None) | (None, Some(_)) => false,
    }
}

/// Whether two values have the same type, or are untyped alike.
fn is_same_value_type(one: &ValueType<TypeTerm>, other: &ValueType<TypeTerm>) -> bool
    ensures { IsTrue result ↔ (value_type_shown one.now ≡ value_type_shown other.now) }
{
    match (one, other) {
        (ValueType::Typed(one), ValueType::Typed(other)) => equal_term(one, other),
        (ValueType::UntypedInt, ValueType::UntypedInt) => true,
        (ValueType::UntypedText, ValueType::UntypedText) => true,
        (ValueType::UntypedBool, ValueType::UntypedBool) => true,
        (ValueType::Nil, ValueType::Nil) => true,
        _ => false,
    }
}

/// Whether two operands are the same.
fn is_same_operand(one: &Operand<TypeTerm>, other: &Operand<TypeTerm>) -> bool
    ensures { IsTrue result ↔ (operand_shown one.now ≡ operand_shown other.now) }
{
    is_same_value_type(&one.value_type, &other.value_type)
        && is_same_value(&one.constant, &other.constant)
        && one.addressable == other.addressable
}

/// Whether two operands are the same that may be there.
fn is_same_operand_if(one: &Option<Operand<TypeTerm>>, other: &Option<Operand<TypeTerm>>) -> bool
    ensures { IsTrue result ↔ (option_map operand_shown one.now ≡ option_map operand_shown other.now) }
{
    match (one, other) {
        (Some(one), Some(other)) => is_same_operand(one, other),
        (None, None) => true,
        (Some(_), None) | (None, Some(_)) => false,
    }
}

/// Whether two types are the same that may be there.
fn is_same_term_if(one: &Option<TypeTerm>, other: &Option<TypeTerm>) -> bool
    ensures { IsTrue result ↔ (option_map shape one.now ≡ option_map shape other.now) }
{
    match (one, other) {
        (Some(one), Some(other)) => equal_term(one, other),
        (None, None) => true,
        (Some(_), None) | (None, Some(_)) => false,
    }
}

/// Whether two faces are the same.
fn is_same_face(one: &Face<TypeTerm, Signature>, other: &Face<TypeTerm, Signature>) -> bool
    ensures { IsTrue result ↔ (face_shown one.now ≡ face_shown other.now) }
{
    match (one, other) {
        (Face::Type(one), Face::Type(other)) => is_same_term_if(one, other),
        (Face::Func(one), Face::Func(other)) => equal_signature(one, other),
        (Face::Value(one), Face::Value(other)) => is_same_operand_if(one, other),
        _ => false,
    }
}

/// Whether two declarations are the same, with the same face.
fn is_same_declared(one: &DeclaredFace, other: &DeclaredFace) -> bool
    ensures { IsTrue result ↔ (declared_shown one.now ≡ declared_shown other.now) }
{
    one.decl == other.decl && is_same_face(&one.face, &other.face)
}

/// Whether two lists have the same declarations in order, with the same faces.
fn same_declared(faces: &[DeclaredFace], others: &[DeclaredFace]) -> bool
    ensures { IsTrue result ↔ (map declared_shown faces.now ≡ map declared_shown others.now) }
{
    if faces.len() != others.len() {
        return false;
    }
    for place in 0..faces.len() {
        if !is_same_declared(&faces[place], &others[place]) {
            return false;
        }
    }
    true
}

/// Whether two packages have the same path, the same names as others see them, and the same faces.
pub fn same_faces(one: &PackageFaces, other: &PackageFaces) -> bool
    ensures { IsTrue result ↔ (one.now ≡ other.now) }
{
    one.path().is_same(other.path())
        && one.has_same_names(other)
        && same_declared(one.faces(), other.faces())
}
