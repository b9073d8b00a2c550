//! Laws of operands.
ghost use Rattle.go_operand_core.specs.Refusals.{BitsAreOutside, NoDivisionByZero};
ghost use Rattle.go_operand_core.specs.Variables.{AddressesPointBack, UpdatesAssign};
ghost use Rattle.go_operand_core.specs.Converting.{ConversionsAreListed};
ghost use Rattle.go_operand_core.specs.Known.{ConstantsOfTheirTypes};
ghost use Rattle.go_operand_core.specs.Laws.{AssignabilityIsARelation, ComparabilityIsARelation, CommonIsARelation, RepresentableConstants, OperatorsAreToldApart, OwnTypes, ConstantsInConstantsOut};

/// A law, with nothing to run: a value is assignable to a variable of a type exactly where one of the cases of the Go specification,
/// "Assignability", holds.
pub fn assignability_is_a_relation<T: Drop>()
    ensures { AssignabilityIsARelation T }
{}

/// A law, with nothing to run: two values are comparable exactly where one is assignable to the type of the other, or both are untyped
/// of one kind. The Go specification, "Comparison operators".
pub fn comparability_is_a_relation<T: Drop>()
    ensures { ComparabilityIsARelation T }
{}

/// A law, with nothing to run: what two operands have in common is the type that both have, or that an untyped one takes from the other
/// because it is assignable to it, or the kind of two untyped ones. The Go specification, "Operators".
pub fn common_is_a_relation<T: Drop>()
    ensures { CommonIsARelation T }
{}

/// A law, with nothing to run: an untyped constant is assignable to a type over bool, int or string exactly where it is among the values
/// of that type. The Go specification, "Representability".
pub fn representable_constants<T: Drop>()
    ensures { RepresentableConstants T }
{}

/// A law, with nothing to run: which operators take operands over bool, over int and over string, and what they give: a table. The Go
/// specification, "Arithmetic operators", "Comparison operators", "Logical operators".
pub fn operators_are_told_apart<T: Drop>()
    ensures { OperatorsAreToldApart T }
{}

/// A law, with nothing to run: what an operator gives has the type that both of its operands have after an untyped one took the other's;
/// a comparison gives an untyped boolean, where its operands have one type or are comparable.
pub fn own_type<T: Drop>()
    ensures { OwnTypes T }
{}

/// A law, with nothing to run: what an operator gives is constant exactly where its operands are. The Go specification, "Constant
/// expressions".
pub fn constants_in_constants_out<T: Drop>()
    ensures { ConstantsInConstantsOut T }
{}

/// A law, with nothing to run: where the constants of the operands are values of the operands' types, the constant that an operator gives
/// is a value of the type that it gives: no constant wraps, none is out of range, and none becomes unknown. The Go specification,
/// "Constant expressions": the values of typed constants must always be accurately representable by values of the constant type.
pub fn constants_of_their_types<T: Drop>()
    ensures { ConstantsOfTheirTypes T }
{}

/// A law, with nothing to run: bit operators and shifts are outside the profile whatever they stand between or before, and no other
/// operator is for an operand that is refused.
pub fn bits_are_outside<T: Drop>()
    ensures { BitsAreOutside T }
{}

/// A law, with nothing to run: integers that are divided by the constant 0 are Y7, and operands of a division that are no integers Y3
/// alone. The Go specification, "Constant expressions", "Integer operators".
pub fn no_division_by_zero<T: Drop>()
    ensures { NoDivisionByZero T }
{}

/// A law, with nothing to run: `&x` is a pointer to the type of x, where x is a variable or a composite literal; `*p` is the variable to
/// which the pointer points; so `*&x` is a variable of the type of x. The Go specification, "Address operators".
pub fn addresses_point_back<T: Drop>()
    ensures { AddressesPointBack T }
{}

/// A law, with nothing to run: `x op= y` stands exactly where x is addressable and `x op y` stands, whose type is that of x; `x++` and
/// `x--` where x is addressable and over int. The Go specification, "Assignment statements", "IncDec statements".
pub fn updates_assign<T: Drop>()
    ensures { UpdatesAssign T }
{}

/// A law, with nothing to run: a conversion stands exactly where the operand is assignable to the type or the types are alike, but for
/// integers that would become strings; it gives a value of the type, which keeps a constant where the type is over bool, int or string.
/// The Go specification, "Conversions".
pub fn conversions_are_listed<T: Drop>()
    ensures { ConversionsAreListed T }
{}
