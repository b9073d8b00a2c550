//! Arithmetic of integer constants: the exact integer, where it has 64 bits.
ghost use Rattle.std.specs.Prelude.{◌≡◌, ◌+ℤ◌, ◌-ℤ◌, ◌*ℤ◌, neg_ℤ, int_div, int_rem};
ghost use Rattle.go_constant_core.specs.Values.{ranged, divided, int_same, int_less};

use crate::values::Constant;

pub(crate) fn sum(a: i64, b: i64) -> Option<Constant>
    ensures { result ≡ ranged (a +ℤ b) }
{
    match a.checked_add(b) {
        Some(c) => Some(Constant::Int(c)),
        None => None,
    }
}

pub(crate) fn difference(a: i64, b: i64) -> Option<Constant>
    ensures { result ≡ ranged (a -ℤ b) }
{
    match a.checked_sub(b) {
        Some(c) => Some(Constant::Int(c)),
        None => None,
    }
}

pub(crate) fn product(a: i64, b: i64) -> Option<Constant>
    ensures { result ≡ ranged (a *ℤ b) }
{
    match a.checked_mul(b) {
        Some(c) => Some(Constant::Int(c)),
        None => None,
    }
}

pub(crate) fn negated(a: i64) -> Option<Constant>
    ensures { result ≡ ranged (neg_ℤ a) }
{
    match a.checked_neg() {
        Some(c) => Some(Constant::Int(c)),
        None => None,
    }
}

pub(crate) fn quotient(a: i64, b: i64) -> Option<Constant>
    ensures { result ≡ divided int_div a b }
{
    if b == 0 {
        return Some(Constant::Unknown);
    }
    match a.checked_div(b) {
        Some(c) => Some(Constant::Int(c)),
        None => None,
    }
}

pub(crate) fn remainder(a: i64, b: i64) -> Option<Constant>
    ensures { result ≡ divided int_rem a b }
{
    if b == 0 {
        return Some(Constant::Unknown);
    }
    if b == -1 {
        return Some(Constant::Int(0));
    }
    Some(Constant::Int(a % b))
}

pub(crate) fn is_same(a: i64, b: i64) -> bool
    ensures { result ≡ int_same a b }
{
    a == b
}

pub(crate) fn is_less(a: i64, b: i64) -> bool
    ensures { result ≡ int_less a b }
{
    a < b
}
