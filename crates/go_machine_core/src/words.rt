//! Operators on words.
ghost use Rattle.std.specs.Prelude.{◌≡◌};
ghost use Rattle.go_machine_core.specs.Words.{bit, negated, inverted, is_true, sum, difference, product, quotient, remainder, equal, differs, less, at_most, greater, at_least};
ghost use Rattle.go_machine_core.specs.mirrors.Shown.{operation};

/// An operator on two words.
#[derive(Clone, Copy)]
pub(crate) enum Operation {
    Add,
    Sub,
    Mul,
    Div,
    Rem,
    Eq,
    Ne,
    Lt,
    Le,
    Gt,
    Ge,
}

#[tactic(auto, using(std::proofs::lemmas::Int::wraps), unfolding(crate::specs::Words::negated))]
pub(crate) fn negate(x: i64) -> i64
    ensures { result ≡ negated x }
{
    x.wrapping_neg()
}

#[tactic(auto, unfolding(crate::specs::Words::inverted))]
pub(crate) fn invert(x: i64) -> i64
    ensures { result ≡ inverted x }
{
    if x == 0 { 1 } else { 0 }
}

pub(crate) fn holds(x: i64) -> bool
    ensures { result ≡ is_true x }
{
    x != 0
}

fn bit_of(test: bool) -> i64
    ensures { result ≡ bit test }
{
    if test { 1 } else { 0 }
}

#[tactic(auto, using(std::proofs::lemmas::Int::wraps), unfolding(crate::specs::Words::sum))]
fn add(x: i64, y: i64) -> Option<i64>
    ensures { result ≡ sum x y }
{
    Some(x.wrapping_add(y))
}

#[tactic(auto, using(std::proofs::lemmas::Int::wraps), unfolding(crate::specs::Words::difference))]
fn subtract(x: i64, y: i64) -> Option<i64>
    ensures { result ≡ difference x y }
{
    Some(x.wrapping_sub(y))
}

#[tactic(auto, using(std::proofs::lemmas::Int::wraps), unfolding(crate::specs::Words::product))]
fn multiply(x: i64, y: i64) -> Option<i64>
    ensures { result ≡ product x y }
{
    Some(x.wrapping_mul(y))
}

#[tactic(auto, unfolding(crate::specs::Words::quotient))]
fn divide(x: i64, y: i64) -> Option<i64>
    ensures { result ≡ quotient x y }
{
    if y == 0 {
        return None;
    }
    Some(x.wrapping_div(y))
}

#[tactic(auto, unfolding(crate::specs::Words::remainder))]
fn rest(x: i64, y: i64) -> Option<i64>
    ensures { result ≡ remainder x y }
{
    if y == 0 {
        return None;
    }
    Some(x.wrapping_rem(y))
}

#[tactic(auto, unfolding(crate::specs::Words::equal))]
fn is_equal(x: i64, y: i64) -> Option<i64>
    ensures { result ≡ equal x y }
{
    Some(bit_of(x == y))
}

#[tactic(auto, unfolding(crate::specs::Words::differs))]
fn is_other(x: i64, y: i64) -> Option<i64>
    ensures { result ≡ differs x y }
{
    Some(bit_of(x != y))
}

#[tactic(auto, unfolding(crate::specs::Words::less))]
fn is_less(x: i64, y: i64) -> Option<i64>
    ensures { result ≡ less x y }
{
    Some(bit_of(x < y))
}

#[tactic(auto, unfolding(crate::specs::Words::at_most))]
fn is_at_most(x: i64, y: i64) -> Option<i64>
    ensures { result ≡ at_most x y }
{
    Some(bit_of(x <= y))
}

#[tactic(auto, unfolding(crate::specs::Words::greater))]
fn is_greater(x: i64, y: i64) -> Option<i64>
    ensures { result ≡ greater x y }
{
    Some(bit_of(x > y))
}

#[tactic(auto, unfolding(crate::specs::Words::at_least))]
fn is_at_least(x: i64, y: i64) -> Option<i64>
    ensures { result ≡ at_least x y }
{
    Some(bit_of(x >= y))
}

/// What an operator gives, unless it panics.
pub(crate) fn operate(operator: Operation, x: i64, y: i64) -> Option<i64>
    ensures { result ≡ operation operator x y }
{
    match operator {
        Operation::Add => add(x, y),
        Operation::Sub => subtract(x, y),
        Operation::Mul => multiply(x, y),
        Operation::Div => divide(x, y),
        Operation::Rem => rest(x, y),
        Operation::Eq => is_equal(x, y),
        Operation::Ne => is_other(x, y),
        Operation::Lt => is_less(x, y),
        Operation::Le => is_at_most(x, y),
        Operation::Gt => is_greater(x, y),
        Operation::Ge => is_at_least(x, y),
    }
}
