//! Laws of another spelling.
ghost use Rattle.go_complete_core.specs.spelling.PieceContexts.{FunctionContextsStay, PieceContextsStay};
ghost use Rattle.go_complete_core.specs.spelling.PieceLaws.{BehindDotsNoNames, FacesAreAsEver, InitialContextsStay, OuterTypesStay};
ghost use Rattle.go_complete_core.specs.spelling.Values.{NeededStays, UntouchedStays};

/// A law, with nothing to run: two tables of values whose nodes need others may differ at some nodes. A node that each of these needs, in
/// both, has the same value in both tables, or none in both: where it leads to one that differs, it leads back to itself.
pub fn needed_stays<V: Drop>()
    ensures { NeededStays V }
{}

/// A law, with nothing to run: a node that leads to no node which differs has the same value in both tables, or none in both.
pub fn untouched_stays<V: Drop>()
    ensures { UntouchedStays V }
{}

/// A law, with nothing to run: where one identifier of one initialiser of a package is spelled anew, it stands in the context in which it
/// stood, and has what this context's rule gives for the new spelling. What stands in front of its dot denotes what it denoted, through
/// chains of declarations too.
///
/// The Go specification, "Selectors", "Package initialization".
pub fn initial_contexts_stay()
    ensures { InitialContextsStay }
{}

/// A law, with nothing to run: the declarations of a package by the types that are made of the initialisers of their files are those of
/// which the laws here speak.
pub fn faces_are_as_ever()
    ensures { FacesAreAsEver }
{}

/// A law, with nothing to run: what a name has behind a dot, and as a key of a literal, by its context, does not depend on what names stand
/// for. So what each spelling would have there can be asked where the file stands as it is.
pub fn behind_dots_no_names<T, S, D, P>()
    ensures { BehindDotsNoNames T S D P }
{}

/// A law, with nothing to run: what is noted of a piece of a function is what its identifiers have in their contexts, and its calls; and in
/// it an identifier under another spelling stands in the context in which it stood.
pub fn piece_contexts_stay<T, S, D, P>()
    ensures { PieceContextsStay T S D P }
{}

/// A law, with nothing to run: where one identifier of a function is spelled anew, in an expression, a type, its header or its receiver, it
/// stands in the context in which it stood, and has what this context's rule gives for the new spelling, where names mean what they mean in
/// front of its piece. A declaration's own piece does not see the names that it declares, and nothing that stands behind counts.
///
/// The Go specification, "Declarations and scope".
pub fn function_contexts_stay<X, T, S, D, P>()
    ensures { FunctionContextsStay X T S D P }
{}

/// A law, with nothing to run: where one identifier of a type outside functions is spelled anew, it stands in the context in which it stood,
/// whatever the types and the declarations of the package are then.
///
/// The Go specification, "Types", "Qualified identifiers".
pub fn outer_types_stay()
    ensures { OuterTypesStay }
{}
