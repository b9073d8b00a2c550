//! Code of small functions, worked out by hand, with nothing to run.
ghost use Rattle.go_code_core.specs.Samples.{CallsAreCoded, ChoicesAreCoded, ConstantsArePushed, InnerBlocksHaveSlots, LoopsAreCoded, OperandsHaveShortCuts, OperandsInOrder, OutsidersAreNotCoded, UnnamedHaveSlots};

/// Operands come from left to right, then the operator.
pub fn operands_come_in_order()
    ensures { OperandsInOrder }
{}

/// `&&` and `||` pass over their right operand where the left one decides.
pub fn operands_have_short_cuts()
    ensures { OperandsHaveShortCuts }
{}

/// An `if` with an `else`.
pub fn choices_are_coded()
    ensures { ChoicesAreCoded }
{}

/// A `for` with three parts and a `continue`, and one without a head and with a `break`.
pub fn loops_are_coded()
    ensures { LoopsAreCoded }
{}

/// Calls of a function, of `println`, and of two methods of one spelling on two types.
pub fn calls_are_coded()
    ensures { CallsAreCoded }
{}

/// Receivers and parameters without a name, or with the name `_`, have slots.
pub fn unnamed_have_slots()
    ensures { UnnamedHaveSlots }
{}

/// Variables of one spelling in blocks inside one another have a slot each.
pub fn inner_blocks_have_slots()
    ensures { InnerBlocksHaveSlots }
{}

/// A constant expression is pushed as its value.
pub fn constants_are_pushed()
    ensures { ConstantsArePushed }
{}

/// No code is made where the receiver is a pointer, where the result has a name, and where a parameter is over something other than `int` or `bool`.
pub fn outsiders_are_not_coded()
    ensures { OutsidersAreNotCoded }
{}
