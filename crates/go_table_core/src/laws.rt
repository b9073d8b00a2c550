//! Laws of tables of types.
ghost use Rattle.go_table_core.specs.Laws.{UnderlyingIsLocal, ReachIsClosed, AssignabilityByRule, AssignableIsLocal, AssignableToItself, NothingToNoType, AddingKeeps, ErrorIsAnInterface};

use go_term_core::{identity_by_form, identity_is_equivalence};

/// A law, with nothing to run: a type's underlying type and its methods are the same in two tables that have the same of all that
/// the type reaches, and mention what it reaches alone.
pub fn underlying_is_local()
    ensures { UnderlyingIsLocal }
{}

/// A law, with nothing to run: a defined type is reached from itself; what is reached from a type that is reached, from the underlying type or
/// from the methods is reached; and where two tables have the same of all that a type reaches, it reaches the same in both.
pub fn reach_is_closed()
    ensures { ReachIsClosed }
{}

/// A law, with nothing to run: a value is assignable to a type by the rules of the Go specification, "Assignability", and by no others. So a
/// value of a defined type goes to no other defined type but interface types.
pub fn assignability_by_rule()
    ensures { AssignabilityByRule }
{}

/// A law, with nothing to run: what is assignable depends on what operand and target reach alone.
pub fn assignable_is_local()
    ensures { AssignableIsLocal }
{}

/// A law, with nothing to run: a value of a type is assignable to that type.
pub fn assignable_to_itself()
    ensures { AssignableToItself }
{
    identity_is_equivalence();
}

/// A law, with nothing to run: nothing is assignable to what is no type, and no value of what is no type is assignable.
pub fn nothing_is_assignable_to_no_type()
    ensures { NothingToNoType }
{}

/// A law, with nothing to run: types that are added to a table behind others change nothing of what it has of a defined type, and give what
/// they have of one that it had not.
pub fn adding_keeps()
    ensures { AddingKeeps }
{}

/// A law, with nothing to run: a type whose underlying type is that of `error` has an underlying type identical to that of exactly the types whose
/// underlying type is that of `error` or an interface type with exactly the method `Error() string`; tags play no part. So the two are convertible to one another,
/// and so are pointers to them. The Go specification, "Errors", "Underlying types".
pub fn error_is_an_interface()
    ensures { ErrorIsAnInterface }
{
    identity_by_form();
}
