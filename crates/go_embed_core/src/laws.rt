//! Laws of members and faults.
ghost use Rattle.go_embed_core.specs.Laws.{EachFaultOnce, EmbeddingIsAStep, FaultsAreLocal, HiddenIsTold, OwnerIsLocal, RepeatedIsTold, StarredInterfaceIsTold};

/// A law, with nothing to run: what is embedded is a field of the type's struct type that is written as an embedded one and that no
/// method of the type keeps from it; and its type with the star taken off is the edge's end.
pub fn embedding_is_a_step()
    ensures { EmbeddingIsAStep }
{}

/// A law, with nothing to run: the members of a type depend on the type, and on what is known of the type that it names.
pub fn owner_is_local()
    ensures { OwnerIsLocal }
{}

/// A law, with nothing to run: the faults of a type depend on the kinds of what it mentions alone.
pub fn faults_are_local()
    ensures { FaultsAreLocal }
{}

/// A law, with nothing to run: a field of a struct type repeats a name (B5) exactly where an earlier field of that struct type has the name
/// and it is not blank.
pub fn repeated_is_told()
    ensures { RepeatedIsTold }
{}

/// A law, with nothing to run: a field of a struct type may not be embedded (Y2) exactly where it is written as an embedded one, and its
/// type is a pointer type by its name, or a star and the name of a pointer type or an interface type.
pub fn starred_interface_is_told()
    ensures { StarredInterfaceIsTold }
{}

/// A law, with nothing to run: a field of the struct type by which a defined type is defined has B5 beside what it repeats of the struct type
/// exactly where a method of its identifier, which is the type's own, stands before it; and exactly then it is no member of the defined type.
pub fn hidden_is_told()
    ensures { HiddenIsTold }
{}

/// A law, with nothing to run: the list of a type's faults has each fault once, where the members that the type declares have places of their own.
pub fn each_fault_once()
    ensures { EachFaultOnce }
{}
