//! Laws of what code takes expressions for.
ghost use Rattle.go_workspace_laws.specs.folding.Laws.{ConstantsAreFolded, ExpressionsAreFolded};
ghost use Rattle.go_workspace_laws.specs.folding.Samples.{SampleParts};
ghost use Rattle.go_workspace_laws.specs.folding.Typed.{ExpressionsAreTyped};

/// A law, with nothing to run: an expression that the check finds no fault in, where code takes each of its names for what the check found. Each part of it
/// of which code is made is folded by code exactly where it is a constant over `int` or `bool` to the check, and to the constant's value.
///
/// The Go specification, "Constant expressions": constant expressions may contain only constant operands and are evaluated at compile time, and always exactly.
pub fn constants_are_folded<T, S, D, P>()
    ensures { ConstantsAreFolded T S D P }
{}

/// A law, with nothing to run: where calls of methods give in code what the methods' signatures give, each such part is a single value to the check, and code
/// folds it exactly where this operand is constant, to its value.
///
/// The Go specification, "Operands", "Constant expressions".
pub fn expressions_are_folded<T, S, D, P>()
    ensures { ExpressionsAreFolded T S D P }
{}

/// A law, with nothing to run: where calls of methods of operands over `int` and `bool` give in code what the methods' signatures give, and each variable and each
/// constant that a name stands for is over what its type is over, each such part of the expression is a single value to the check, over the same, and so is the
/// constant that code folds it to. Nothing is asked of the members of other types.
///
/// The Go specification, "Constant expressions": the values of typed constants must always be accurately representable by values of the constant type. "Conversions".
pub fn expressions_are_typed<T, S, D, P>()
    ensures { ExpressionsAreTyped T S D P }
{}

/// A law, with nothing to run: which expressions stand in a few expressions of all forms, and at which places.
pub fn sample_parts()
    ensures { SampleParts }
{}
