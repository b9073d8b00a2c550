//! Laws of what is made of a package before its files are checked, with nothing to run.
ghost use Rattle.go_package_core.specs.prepare.Laws.{DeclarationsHaveOneTable, LoopsAreFaults, ValuesAreAsWritten};

/// What the declarations of a package are by the types that were made of its initialisers beforehand is what they are where each type is what its
/// names mean where they stand, and the other way round; and so it is with the constants that are defined through themselves. No table of types
/// is needed to say what they are.
///
/// The Go specification, "Constant declarations", "Variable declarations", "Types".
pub fn values_are_as_written()
    ensures { ValuesAreAsWritten }
{}

/// There is at most one answer to what the declarations of a package are, and to which of its constants are defined through themselves.
///
/// The Go specification, "Package initialization".
pub fn declarations_have_one_table()
    ensures { DeclarationsHaveOneTable }
{}

/// The types and the aliases of a package that reach themselves by what is written, through types and aliases outside pointers and interfaces, are
/// exactly those that have the fault of such a loop at their names. So what is found of types by the targets of their names, and what is found of
/// aliases by what is written, is one rule.
///
/// The Go specification, "Type declarations", "Alias declarations".
pub fn loops_are_faults()
    ensures { LoopsAreFaults }
{}
