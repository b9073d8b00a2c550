//! Which rules may follow from which.
ghost use Rattle.std.specs.Prelude.{◌≡◌};
ghost use Rattle.go_cause_core.specs.Pairs as pairs;

use go_denote_core::text_core::Rule;

/// Whether the rule is one of a text that has no tree.
pub(crate) fn is_of_text(rule: Rule) -> bool
    ensures { result ≡ pairs.is_of_text rule }
{
    matches!(
        rule,
        Rule::L1 | Rule::L2 | Rule::L3 | Rule::P1 | Rule::P2 | Rule::E3
    )
}

/// Whether the rule says that the files of a package make no package.
pub(crate) fn is_of_assembly(rule: Rule) -> bool
    ensures { result ≡ pairs.is_of_assembly rule }
{
    matches!(rule, Rule::K2 | Rule::K3 | Rule::K4)
}

/// Whether the rule refuses an import.
pub(crate) fn is_of_import(rule: Rule) -> bool
    ensures { result ≡ pairs.is_of_import rule }
{
    matches!(
        rule,
        Rule::I1 | Rule::I2 | Rule::I3 | Rule::I4 | Rule::I5 | Rule::I6
    )
}

// Whether the rule is one of second declarations.
fn is_of_block(rule: Rule) -> bool
    ensures { result ≡ pairs.is_of_block rule }
{
    matches!(rule, Rule::B1 | Rule::B2)
}

// Whether the rule refuses a name, so that its import is not used by it.
fn is_of_name(rule: Rule) -> bool
    ensures { result ≡ pairs.is_of_name rule }
{
    matches!(
        rule,
        Rule::N1 | Rule::N2 | Rule::N3 | Rule::N4 | Rule::N5 | Rule::N6 | Rule::N7 | Rule::N8
    )
}

// Whether the rule refuses a selector, a literal or a call.
fn is_of_operand(rule: Rule) -> bool
    ensures { result ≡ pairs.is_of_operand rule }
{
    matches!(
        rule,
        Rule::N9
            | Rule::S1
            | Rule::S2
            | Rule::S3
            | Rule::S4
            | Rule::S5
            | Rule::S6
            | Rule::S7
            | Rule::S8
            | Rule::F8
            | Rule::C1
            | Rule::C2
            | Rule::C3
            | Rule::C4
    )
}

// Whether the rule says that a declaration or an operator gives no type.
fn is_of_type(rule: Rule) -> bool
    ensures { result ≡ pairs.is_of_type rule }
{
    matches!(rule, Rule::Y1 | Rule::Y3 | Rule::Y4 | Rule::Y7 | Rule::X1)
}

// Whether the rule may leave an expression or a declaration without a type.
fn is_to_blame(rule: Rule) -> bool
    ensures { result ≡ pairs.is_to_blame rule }
{
    is_of_name(rule) || is_of_operand(rule) || is_of_type(rule)
}

// Whether the rule is one of what stands on an operand or on a type.
fn needs_type(rule: Rule) -> bool
    ensures { result ≡ pairs.needs_type rule }
{
    matches!(
        rule,
        Rule::S1 | Rule::S4 | Rule::F1 | Rule::F3 | Rule::F8 | Rule::C1 | Rule::X1
    )
}

// Whether a rule is this one.
fn is_k4(rule: Rule) -> bool
    ensures { result ≡ pairs.is_k4 rule }
{
    matches!(rule, Rule::K4)
}

fn is_i6(rule: Rule) -> bool
    ensures { result ≡ pairs.is_i6 rule }
{
    matches!(rule, Rule::I6)
}

fn is_i7(rule: Rule) -> bool
    ensures { result ≡ pairs.is_i7 rule }
{
    matches!(rule, Rule::I7)
}

fn is_n9(rule: Rule) -> bool
    ensures { result ≡ pairs.is_n9 rule }
{
    matches!(rule, Rule::N9)
}

fn is_n5(rule: Rule) -> bool
    ensures { result ≡ pairs.is_n5 rule }
{
    matches!(rule, Rule::N5)
}

fn is_n7(rule: Rule) -> bool
    ensures { result ≡ pairs.is_n7 rule }
{
    matches!(rule, Rule::N7)
}

fn is_i4(rule: Rule) -> bool
    ensures { result ≡ pairs.is_i4 rule }
{
    matches!(rule, Rule::I4)
}

fn is_f4(rule: Rule) -> bool
    ensures { result ≡ pairs.is_f4 rule }
{
    matches!(rule, Rule::F4)
}

fn is_f5(rule: Rule) -> bool
    ensures { result ≡ pairs.is_f5 rule }
{
    matches!(rule, Rule::F5)
}

fn is_f8(rule: Rule) -> bool
    ensures { result ≡ pairs.is_f8 rule }
{
    matches!(rule, Rule::F8)
}

fn is_y1(rule: Rule) -> bool
    ensures { result ≡ pairs.is_y1 rule }
{
    matches!(rule, Rule::Y1)
}

fn is_y7(rule: Rule) -> bool
    ensures { result ≡ pairs.is_y7 rule }
{
    matches!(rule, Rule::Y7)
}

/// Whether the rule is N1.
pub(crate) fn is_n1(rule: Rule) -> bool
    ensures { result ≡ pairs.is_n1 rule }
{
    matches!(rule, Rule::N1)
}

// Of packages and imports.
fn may_follow_outside(cause: Rule, follower: Rule) -> bool
    ensures { result ≡ pairs.may_follow_outside cause follower }
{
    (is_k4(follower) && is_of_text(cause))
        || (is_i6(follower) && is_of_assembly(cause))
        || (is_n9(follower) && is_of_import(cause))
        || (is_i7(follower) && (is_of_block(cause) || is_of_name(cause)))
}

// Of what stands in declarations and expressions.
fn may_follow_inside(cause: Rule, follower: Rule) -> bool
    ensures { result ≡ pairs.may_follow_inside cause follower }
{
    (needs_type(follower) && is_to_blame(cause)) || (is_n5(follower) && is_n7(cause))
}

// Of what is told once for each of several places.
fn may_repeat(cause: Rule, follower: Rule) -> bool
    ensures { result ≡ pairs.may_repeat cause follower }
{
    (is_i4(follower) && is_i4(cause))
        || (is_f4(follower) && is_f4(cause))
        || (is_f5(follower) && is_f5(cause))
        || (is_f8(follower) && is_f8(cause))
        || (is_y1(follower) && is_y1(cause))
        || (is_y7(follower) && is_y7(cause))
}

/// Whether a fault of the one rule may be the direct cause of a fault of the other.
pub(crate) fn may_follow(cause: Rule, follower: Rule) -> bool
    ensures { result ≡ pairs.may_follow cause follower }
{
    may_follow_outside(cause, follower)
        || may_follow_inside(cause, follower)
        || may_repeat(cause, follower)
}
