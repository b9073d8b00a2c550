//! Laws of references, with nothing to run.
ghost use Rattle.go_reference_core.specs.Laws.{DefinedAreReferences};

/// An identifier that is used at an offset of a file is a reference of the declaration that `define` of `go_query_core` answers there.
pub fn defined_are_references()
    ensures { DefinedAreReferences }
{}
