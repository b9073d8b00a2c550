//! Laws of the types of a package.
ghost use Rattle.go_type_core.specs.Laws.{BuildingIsLocal, BuiltMentionsWritten, OneSettled, UnderlyingAsDefined};
ghost use Rattle.go_type_core.specs.Sample.{WorkedDeclaredTypes};

/// A law, with nothing to run: what is written of a package has one list of types and one list of faults over the same types of other
/// packages.
pub fn one_settled()
    ensures { OneSettled }
{}

/// A law, with nothing to run: the underlying type of a declared type is that of the type by which it is defined, as the Go specification,
/// "Underlying types", has it; and a type that reaches itself outside pointers and interfaces has none.
pub fn underlying_as_defined()
    ensures { UnderlyingAsDefined }
{}

/// A law, with nothing to run: what the types of a package are depends, of other packages, on the types that its declarations mention, and on no
/// others.
pub fn building_is_local()
    ensures { BuildingIsLocal }
{}

/// A law, with nothing to run: the types of a package mention what its declarations mention, and what the underlying types of other packages'
/// types mention that stand there; no other defined type.
pub fn built_mentions_written()
    ensures { BuiltMentionsWritten }
{}

/// Samples worked by hand, with nothing to run: `type T struct { f T }` reaches itself and is no type, nor is a pointer to it; `type T
/// struct { f *T }` and `type T *T` are types; `type T T` is none.
pub fn worked_types()
    ensures { WorkedDeclaredTypes }
{}
