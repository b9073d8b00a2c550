//! Laws of the predeclared names, with nothing to run.
ghost use Rattle.go_universe_core.specs.Universe.{EachIsFound, NamesDiffer};

/// A name is found exactly where it is the spelling of a predeclared name, and it is that one which is found.
pub fn each_is_found()
    ensures { EachIsFound }
{}

/// Two predeclared names are spelled differently.
pub fn names_differ()
    ensures { NamesDiffer }
{}
