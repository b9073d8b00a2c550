//! Laws of functions and the types that they write, with nothing to run.
ghost use Rattle.go_body_core.specs.function.Laws.{BodiesAreAsWritten, FunctionsHaveOccurrences, FunctionsHaveOneTable, TypesAreSeenAlike};
ghost use Rattle.go_body_core.specs.function.Locals.{LocalsAreDeclarations};
ghost use Rattle.go_body_core.specs.function.Worked.{WorkedFunctionTypes};

/// What the check of a function's body gives, by the regions of its declarations and by a table of the types that it writes, is what its
/// occurrences have, its faults and its locals, where each type is what its names mean at their places. No table is named there.
///
/// The Go specification, "Declarations and scope", "Types".
pub fn bodies_are_as_written()
    ensures { BodiesAreAsWritten }
{}

/// There is exactly one list of the declarations of a function in which each means what its piece gives under the names as this very list
/// binds them; and what a function has by the regions of these declarations is what it has on the way through it.
///
/// The Go specification, "Declarations and scope".
pub fn functions_have_one_table()
    ensures { FunctionsHaveOneTable }
{}

/// What is noted of a function of the grammar stands where its occurrences stand, with their roles and in their order: each occurrence has
/// exactly one outcome.
pub fn functions_have_occurrences()
    ensures { FunctionsHaveOccurrences }
{}

/// The locals of a function are its declarations that hold, each at its identifier, in order, no two at one offset. A name that denotes a local
/// where it stands denotes one of them, and stands for what that one stands for.
///
/// The Go specification, "Declarations and scope", "Short variable declarations".
pub fn locals_are_declarations()
    ensures { LocalsAreDeclarations }
{}

/// What a table of types has at the first byte of a type is what the type's names make it where they stand: inside a function by the regions
/// of its declarations, and outside functions by what names mean at the top of the file.
///
/// The Go specification, "Declarations and scope", "Types".
pub fn types_are_seen_alike()
    ensures { TypesAreSeenAlike }
{}

/// A function with a parameter that hides a type of its package, in which each identifier has what was worked out by hand, and each local means
/// what was: a name of a type that is a local where it stands means no type, and in the header names mean what they mean outside.
pub fn worked_types()
    ensures { WorkedFunctionTypes }
{}
