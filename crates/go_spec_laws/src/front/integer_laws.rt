//! What integer literals stand for.
ghost use Rattle.go_spec_laws.specs.front.IntegerLaws.{IntegerValuesAreOne};

/// A law, with nothing to run: each integer literal, and no other text, stands for the number that `integer_value_of` (`go_token_core`) names, and for
/// no other, in the sense of the Go specification, "Integer literals": the sum of its digits, each times a power of its base.
pub fn integer_values_are_one()
    ensures { IntegerValuesAreOne }
{}
