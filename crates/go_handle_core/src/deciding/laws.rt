//! Laws of what is decided, with nothing to run.
ghost use Rattle.go_handle_core.specs.deciding.Laws.{IdentityIsDecided, ConvertibilityIsDecided, SelectorsAreDecided, ImplementationIsDecided, AssignabilityIsDecided, RulesAreDecided, SelectionsAreDecided, DecisionsAreLocal};
ghost use Rattle.go_handle_core.specs.deciding.Worked.{WorkedTypes, WorkedMembers};

/// A law, with nothing to run: the functions that compare types, signatures and underlying types say yes to those that are identical, and to no
/// others; tags counted, and passed over.
///
/// The Go specification, "Type identity", "Conversions".
pub fn identity_is_decided()
    ensures { IdentityIsDecided }
{}

/// A law, with nothing to run: the function says yes where the underlying types are identical apart from tags, or both types are pointer types that
/// are not named, whose base types have such underlying types; and nowhere else.
///
/// The Go specification, "Conversions".
pub fn convertibility_is_decided()
    ensures { ConvertibilityIsDecided }
{}

/// A law, with nothing to run: what the search by depth finds in a table is what a selector denotes by paths of every length, and the rule that it
/// gives is the rule that the selector breaks, whatever the table and the type are.
///
/// The Go specification, "Selectors".
pub fn selectors_are_decided()
    ensures { SelectorsAreDecided }
{}

/// A law, with nothing to run: the functions say yes where the method set of a type has a method of an identifier with an identical signature, and
/// where it has all methods of an interface type; and nowhere else.
///
/// The Go specification, "Method sets", "Implementing an interface".
pub fn implementation_is_decided()
    ensures { ImplementationIsDecided }
{}

/// A law, with nothing to run: the function says yes to what is assignable to a variable of a type, and to nothing else: a value of a type, nil, and what
/// is untyped, whose default type may implement an interface type.
///
/// The Go specification, "Assignability".
pub fn assignability_is_decided()
    ensures { AssignabilityIsDecided }
{}

/// A law, with nothing to run: operands over the types of a table are judged by identity, by assignability with the interface types that are
/// implemented, and by convertibility, as the language has them; and by what lies under a type.
pub fn rules_are_decided()
    ensures { RulesAreDecided }
{}

/// A law, with nothing to run: what is handed on of a selector is the member that it denotes, with its type, or with its signature and its receiver's
/// star, or the rule that the selector breaks.
///
/// The Go specification, "Selectors".
pub fn selections_are_decided<D, P>()
    ensures { SelectionsAreDecided D P }
{}

/// A law, with nothing to run: what is decided of types is the same in two tables that have the same of all that the types reach.
pub fn decisions_are_local()
    ensures { DecisionsAreLocal }
{}

/// Types with what is identical, convertible and assignable, worked out by hand.
pub fn worked_types()
    ensures { WorkedTypes }
{}

/// Types with what selectors denote in them and what they implement, worked out by hand.
pub fn worked_members()
    ensures { WorkedMembers }
{}
