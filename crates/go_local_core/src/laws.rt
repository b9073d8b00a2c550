//! Laws of what the names of a function denote, with nothing to run.
ghost use Rattle.go_local_core.specs.Denoted.{OneIsDenoted};
ghost use Rattle.go_local_core.specs.Short.{ShortFaults, ShortWalk};
ghost use Rattle.go_local_core.specs.Tables.{OneTable};
ghost use Rattle.go_local_core.specs.Worked.{WorkedFunctions};

/// There is exactly one list of the declarations of a function in which each means what its piece gives under the
/// names as this very list binds them, and what comes of a walk through the function with the names that are open is
/// what this list gives.
///
/// The Go specification, "Declarations and scope".
pub fn one_table<X, N>()
    ensures { OneTable X N }
{}

/// What a name is bound to at a place is the declaration of it that holds there, whose region has the place and whose
/// block lies inside the blocks of all others; there is at most one.
///
/// The Go specification, "Declarations and scope": "An identifier declared in a block may be redeclared in an inner
/// block. While the identifier of the inner declaration is in scope, it denotes the entity declared by the inner
/// declaration."
pub fn one_is_denoted<X, N>()
    ensures { OneIsDenoted X N }
{}

/// Two functions with headers, `else` chains, groups and short declarations, in which each name denotes the declaration
/// that was worked out by hand, and the faults are those that were: by the walk, and by the intervals.
pub fn worked_functions()
    ensures { WorkedFunctions }
{}

/// What the names to the left of `:=` break is B4 at the first of them exactly where none is new, and B1 at each that is
/// repeated, by what these names are in the block where they stand; and a walk through the function that keeps the names
/// of the block has the same ones for new.
///
/// The Go specification, "Short variable declarations".
pub fn short_is_one_definition<X>()
    ensures faults { ShortFaults X }
    ensures walk { ShortWalk X }
{}
