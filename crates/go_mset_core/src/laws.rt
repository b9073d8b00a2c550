//! Laws of method sets and of implementation.
ghost use Rattle.go_mset_core.specs.Laws.{SelectorsDecide, PointerHasMore, PointerImplementsMore, OneMethodSet, ReceiversDecide, Promotion, OneImplementation, ImplementsItself, ImplementsIsTransitive, ImplementationIsLocal, InterfacesHaveNoMore, HaveNoMethods};

/// A law, with nothing to run: what a selector denotes is in the method set where it is a method whose receiver has no star, or a pointer is
/// passed. Nothing else is in the set.
pub fn selectors_decide()
    ensures { SelectorsDecide }
{}

/// A law, with nothing to run: the method set of a type that is neither a pointer type nor an interface type lies within that of a pointer to
/// it.
pub fn pointer_has_more()
    ensures { PointerHasMore }
{}

/// A law, with nothing to run: a pointer to a type that is neither a pointer type nor an interface type implements what the type implements.
pub fn pointer_implements_more()
    ensures { PointerImplementsMore }
{}

/// A law, with nothing to run: at most one list of methods is the method set of a type.
pub fn one_method_set()
    ensures { OneMethodSet }
{}

/// A law, with nothing to run: a method that is declared of a type is in its method set exactly where its receiver has no star, and in that
/// of a pointer to the type in any case. The Go specification, "Method sets".
pub fn receivers_decide()
    ensures { ReceiversDecide }
{}

/// A law, with nothing to run: of what a struct type S selects through an embedded field, with a type T the methods of T are promoted to S
/// and those of `*T` to `*S`; with `*T` those of `*T` to both; with an interface type its methods to both. The Go specification, "Struct
/// types".
pub fn promotion()
    ensures { Promotion }
{}

/// A law, with nothing to run: at most one answer is right to the question whether a type implements another.
pub fn one_implementation()
    ensures { OneImplementation }
{}

/// A law, with nothing to run: an interface type implements itself, if its methods have names that differ and are not blank.
pub fn implements_itself()
    ensures { ImplementsItself }
{}

/// A law, with nothing to run: a type that implements an interface type implements each that this one implements.
pub fn implements_is_transitive()
    ensures { ImplementsIsTransitive }
{}

/// A law, with nothing to run: method sets, and what implements what, are the same in two tables that have the same of all that the types
/// reach.
pub fn implementation_is_local()
    ensures { ImplementationIsLocal }
{}

/// A law, with nothing to run: the method set of an interface type has its own methods alone.
pub fn interfaces_have_no_more()
    ensures { InterfacesHaveNoMore }
{}

/// A law, with nothing to run: a pointer to a pointer type or to an interface type has no methods, nor has a defined pointer type, nor what is
/// no type.
pub fn have_no_methods()
    ensures { HaveNoMethods }
{}
