//! Laws of outlines, with nothing to run.
ghost use Rattle.go_reference_core.specs.outline.Laws.{NamesAreDeclared, NamesStandWithin};

/// The entries that are no members are exactly the declarations of the file outside functions, in order.
pub fn names_are_declared()
    ensures { NamesAreDeclared }
{}

/// In a file whose tokens follow one another each name stands in its declaration, and each member in that of its type.
pub fn names_stand_within()
    ensures { NamesStandWithin }
{}
