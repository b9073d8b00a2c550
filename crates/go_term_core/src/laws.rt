//! Laws of identity.
ghost use Rattle.go_term_core.specs.Laws.{IdentityIsEquivalence, DefinedByKey, TagsAreCompared, OrderDoesNotCount};
ghost use Rattle.go_term_core.specs.Forms.{IdentityByForm, TagsDoNotCount};

/// A law, with nothing to run: each type is identical to itself; where one is identical to a second, the second is to the first;
/// and two that are identical to a third are to one another. The methods of each interface type in them differ by name, as the
/// Go specification asks.
pub fn identity_is_equivalence()
    ensures { IdentityIsEquivalence }
{}

/// A law, with nothing to run: a defined type is identical to the defined type of the same declaration, and to nothing else,
/// whatever the two are defined by.
pub fn defined_by_key()
    ensures { DefinedByKey }
{}

/// A law, with nothing to run: two struct types of one field that differ in its tag alone are not identical.
pub fn tags_are_compared()
    ensures { TagsAreCompared }
{}

/// A law, with nothing to run: an interface type is identical to the one in which two methods that follow one another have
/// changed places. So the order of methods does not count.
pub fn order_does_not_count()
    ensures { OrderDoesNotCount }
{}

/// A law, with nothing to run: to what a type of each form is identical, in the words of the Go specification, "Type identity". A predeclared
/// type, `error` and what is no type are identical to themselves alone; a pointer to one to what is pointed to; struct types with the
/// same sequence of fields; interface types with the same set of methods; and signatures go type by type.
pub fn identity_by_form()
    ensures { IdentityByForm }
{}

/// A law, with nothing to run: two types are identical but for tags where they are identical without the tags of their fields, at any
/// depth. Identical types are, and it is an equivalence too.
pub fn tags_do_not_count()
    ensures { TagsDoNotCount }
{}
