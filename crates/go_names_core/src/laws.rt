//! Laws of what the names of a function denote, with nothing to run.
ghost use Rattle.go_names_core.specs.Occurrences.{PieceNamesAreOccurrences};
ghost use Rattle.go_names_core.specs.Scenes.{OpenNamesAreBound};
ghost use Rattle.go_names_core.specs.Worked.{WorkedNames};

/// Where a piece of a function is checked, on the way through it by the calls of a scope, each name that the piece writes
/// means in the scope what the intervals of the function's declarations give at its place.
///
/// The Go specification, "Declarations and scope".
pub fn open_names_are_bound<X, N>()
    ensures { OpenNamesAreBound X N }
{}

/// The pieces of a function use those names among its occurrences that are looked up in scope, each once and in their order: names of
/// values, of types and of what is called, and names left of a dot.
pub fn uses_are_occurrences()
    ensures { PieceNamesAreOccurrences }
{}

/// A function with a header, an `else` chain, a group of constants and a short declaration that redeclares, in which each name denotes the
/// declaration that was worked out by hand, and the faults are those that were.
pub fn worked_names()
    ensures { WorkedNames }
{}
