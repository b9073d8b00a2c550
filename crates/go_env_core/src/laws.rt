//! Laws of what a place sees, with nothing to run.
ghost use Rattle.go_env_core.specs.Laws.{FieldsAreMembers, NamesAreLocalInScenes, NamesStandForDeclarations, ShownNamesAreLocal, UniverseIsThis};
ghost use Rattle.go_env_core.specs.Looks.{PartsAreLooks};

/// What the environment of a place answers to types, names, fields and written types are the parts of one look-up: that of its scene, its
/// file, what is known of the package's declarations, the types that are written there and what names mean there.
pub fn parts_are_looks()
    ensures { PartsAreLooks }
{}

/// A name stands for what its declaration in the innermost open block does that has one: a local for what it means, a name of the package
/// block for the face of its declaration, one of the file block for the package or the declaration that it binds, any other for what is
/// predeclared. The Go specification, "Declarations and scope".
pub fn names_stand_for_declarations()
    ensures { NamesStandForDeclarations }
{}

/// Of a package a name takes the face of its own declaration alone, and of other packages what they show under it.
pub fn names_are_local()
    ensures own { NamesAreLocalInScenes }
    ensures shown { ShownNamesAreLocal }
{}

/// What the 44 predeclared names stand for, and that all but those of the profile are outside it. The Go specification, "Predeclared
/// identifiers".
pub fn universe_is_this()
    ensures { UniverseIsThis }
{}

/// The fields that a literal of a type may name are the members of the type that are fields, in their order. The Go specification,
/// "Composite literals", "Struct types".
pub fn fields_are_members()
    ensures { FieldsAreMembers }
{}
