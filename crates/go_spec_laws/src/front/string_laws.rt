//! What string literals stand for.
ghost use Rattle.go_spec_laws.specs.front.StringLaws.{StringValuesAreOne};

/// A law, with nothing to run: each string literal stands for the bytes that `string_value_of` (`go_token_core`) names, and for no others, in the
/// sense of the Go specification, "String literals" and "Rune literals".
pub fn string_values_are_one()
    ensures { StringValuesAreOne }
{}
