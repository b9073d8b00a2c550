//! Whether two checks of a function say the same.
use go_body_core::{BodyUse, CheckedBody, Local};
use go_constant_core::Constant;
use go_declared_core::handle_core::{Decl, DeclSite, TypeRef, is_identical};
use go_denote_core::Outcome;
use go_denote_core::operand_core::{Operand, ValueType};

/// Whether two declarations are one.
fn is_one(one: &Decl<'_>, other: &Decl<'_>) -> bool {
    match (one.site(), other.site()) {
        (DeclSite::Universe(a), DeclSite::Universe(b)) => a == b,
        (DeclSite::ErrorMethod, DeclSite::ErrorMethod) => true,
        (DeclSite::Package(a), DeclSite::Package(b)) => a.is_same(b),
        (DeclSite::InFile(a, place), DeclSite::InFile(b, other)) => a.is_same(b) && place == other,
        _ => false,
    }
}

/// Whether two occurrences have the same.
fn is_same_use(one: &BodyUse<'_>, other: &BodyUse<'_>) -> bool {
    if one.offset != other.offset || one.role != other.role {
        return false;
    }
    match (&one.outcome, &other.outcome) {
        (Outcome::Declared(a), Outcome::Declared(b)) => is_one(a, b),
        (Outcome::Selected(a, path), Outcome::Selected(b, other)) => {
            is_one(a, b) && path.steps() == other.steps()
        }
        (Outcome::Refused(a), Outcome::Refused(b)) => a == b,
        _ => false,
    }
}

/// Whether the types of two values are the same.
fn is_same_type(one: &ValueType<TypeRef<'_>>, other: &ValueType<TypeRef<'_>>) -> bool {
    match (one, other) {
        (ValueType::Typed(a), ValueType::Typed(b)) => is_identical(a, b),
        (ValueType::UntypedInt, ValueType::UntypedInt) => true,
        (ValueType::UntypedText, ValueType::UntypedText) => true,
        (ValueType::UntypedBool, ValueType::UntypedBool) => true,
        (ValueType::Nil, ValueType::Nil) => true,
        _ => false,
    }
}

/// Whether two values of constants are the same.
fn is_same_constant(one: &Option<Constant>, other: &Option<Constant>) -> bool {
    match (one, other) {
        (Some(Constant::Int(a)), Some(Constant::Int(b))) => a == b,
        (Some(Constant::Bool(a)), Some(Constant::Bool(b))) => a == b,
        (Some(Constant::Text(a)), Some(Constant::Text(b))) => a.is_same(b),
        (Some(Constant::Unknown), Some(Constant::Unknown)) => true,
        (None, None) => true,
        _ => false,
    }
}

/// Whether two values are the same.
fn is_same_value(one: &Option<Operand<TypeRef<'_>>>, other: &Option<Operand<TypeRef<'_>>>) -> bool {
    match (one, other) {
        (Some(a), Some(b)) => {
            a.addressable == b.addressable
                && is_same_type(&a.value_type, &b.value_type)
                && is_same_constant(&a.constant, &b.constant)
        }
        (None, None) => true,
        _ => false,
    }
}

/// Whether locals are the same, in the same order.
fn are_same_locals(one: &[Local<'_>], other: &[Local<'_>]) -> bool {
    for (a, b) in one.iter().zip(other) {
        if a.offset != b.offset || !is_same_value(&a.value, &b.value) {
            return false;
        }
    }
    one.len() == other.len()
}

/// Whether occurrences have the same, in the same order.
fn are_same_uses(one: &[BodyUse<'_>], other: &[BodyUse<'_>]) -> bool {
    for (a, b) in one.iter().zip(other) {
        if !is_same_use(a, b) {
            return false;
        }
    }
    one.len() == other.len()
}

/// Whether two checks of a function say the same: the same uses, faults and locals, in the same order.
pub(crate) fn is_same_body(one: &CheckedBody<'_>, other: &CheckedBody<'_>) -> bool {
    are_same_uses(&one.uses, &other.uses)
        && one.faults.as_slice() == other.faults.as_slice()
        && are_same_locals(&one.locals, &other.locals)
}
