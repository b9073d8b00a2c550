//! Laws of what the check says of functions of which code is made, with nothing to run.
ghost use Rattle.go_program_laws.specs.checked_sources.Initial.{VariablesHaveTypes};
ghost use Rattle.go_program_laws.specs.checked_sources.Laws.{FunctionsEndWell, SourcesEndWell};
ghost use Rattle.go_program_laws.specs.checked_sources.Operators.{OperatorsFit};
ghost use Rattle.go_program_laws.specs.checked_sources.Names.{FunctionsNameNoMethods, NamesAreNoMethods};
ghost use Rattle.go_program_laws.specs.checked_sources.Pieces.{PiecesAreClear};
ghost use Rattle.go_program_laws.specs.checked_sources.RunLaws.{ObjectsRunAsTyped};
ghost use Rattle.go_program_laws.specs.checked_sources.Types.{TypesKeepBasics};
ghost use Rattle.go_program_laws.specs.checked_sources.Variables.{SourcesAreOverOneWord, VariablesAreOverOneWord};
ghost use Rattle.go_program_laws.specs.checked_sources.Statements.{ArgumentsAreOverParameters, AssignmentsAreOverOne, ConditionsAreOverBool, ConversionsKeepWords, DeclarationsAreOverOne, ReturnsAreOverResults, UpdatesAreOverInt};

use go_body_core::file::functions_are_placed;
use go_body_core::function::{functions_have_one_table, locals_are_declarations};
use go_emit_core::{bodies_are_between_braces, objects_are_of_faultless};
use go_meaning_laws::fitting_sources::fitting_programs_run_as_meant;
use go_meaning_laws::object_sources::objects_are_code_of_sources;
use go_snap_core::whole_workspace::imports_bind_theirs;
use go_workspace_laws::folding::expressions_are_typed;

/// In a package of which nothing is reported each `break` and each `continue` of a function has a `for` around it, and the body of a function with a result
/// ends in a terminating statement: in a `return`, in a call of what code takes for `panic`, in a loop that nothing leaves, or in blocks that end so.
///
/// The Go specification, "Function declarations", "Terminating statements", "Break statements", "Continue statements".
pub fn functions_end_well()
    ensures { FunctionsEndWell }
{
    bodies_are_between_braces();
    objects_are_of_faultless();
}

/// So it is of each source of the objects of parts.
pub fn sources_end_well()
    ensures { SourcesEndWell }
{
    functions_end_well();
}

/// Each operator of an expression that the check finds no fault in takes what its operands give in code, where the names are in code what they are to the
/// check: integers, truths, or two values over the same.
///
/// The Go specification, "Operators", "Arithmetic operators", "Comparison operators", "Logical operators".
pub fn operators_fit<T, S, D, P>()
    ensures { OperatorsFit T S D P }
{
    expressions_are_typed::<T, S, D, P>();
}

/// Each condition that the check finds no fault in is over `bool` in code, where code is made of it.
///
/// The Go specification, "If statements", "For statements".
pub fn conditions_are_over_bool<T, S, D, P>()
    ensures { ConditionsAreOverBool T S D P }
{}

/// What is assigned to a variable, in an assignment that the check finds no fault in, is over what the variable is over.
///
/// The Go specification, "Assignment statements".
pub fn assignments_are_over_one<T, S, D, P>()
    ensures { AssignmentsAreOverOne T S D P }
{}

/// `++`, `--` and assignment operations that the check finds no fault in stand between integers, where code is made of them.
///
/// The Go specification, "IncDec statements", "Assignment statements".
pub fn updates_are_over_int<T, S, D, P>()
    ensures { UpdatesAreOverInt T S D P }
{}

/// A `return` that the check finds no fault in has a value only in a function with a result, and the value is over what the result is over; without a
/// value it stands only in a function without results, or whose results have names.
///
/// The Go specification, "Return statements".
pub fn returns_are_over_results<T, S, D, P>()
    ensures { ReturnsAreOverResults T S D P }
{}

/// A variable that is declared is over what it is given where no type is written, and over what its type is over where one is; then it is given what is
/// over the same.
///
/// The Go specification, "Variable declarations", "Short variable declarations".
pub fn declarations_are_over_one<T, S, D, P>()
    ensures { DeclarationsAreOverOne T S D P }
{}

/// A conversion in an expression that the check finds no fault in has one argument, which is over what its type is over.
///
/// The Go specification, "Conversions".
pub fn conversions_keep_words<T, S, D, P>()
    ensures { ConversionsKeepWords T S D P }
{}

/// A call of a function or a method in such an expression has an argument for each parameter, over what the parameter is over.
///
/// The Go specification, "Calls".
pub fn arguments_are_over_parameters<T, S, D, P>()
    ensures { ArgumentsAreOverParameters T S D P }
{}

/// Identical types are over the same of `bool`, `int` and `string`, and so are types of which one takes values of the other by assignment or conversion,
/// where both are over one of these; `int` and `bool` are over themselves.
///
/// The Go specification, "Type identity", "Assignability", "Conversions", "Predeclared identifiers".
pub fn types_keep_basics()
    ensures { TypesKeepBasics }
{}

/// Whatever the occurrences of a file have, each identifier that comes to a variable of a function in code comes to it over one word, which the local has that
/// is declared there.
///
/// The Go specification, "Variables", "Declarations and scope".
pub fn variables_are_over_one_word()
    ensures files { VariablesAreOverOneWord }
    ensures sources { SourcesAreOverOneWord }
{}

/// A specification of variables that the grammar allows has a type where it has no values, and the type is over what code takes it for.
///
/// The Go specification, "Variable declarations".
pub fn variables_have_types()
    ensures { VariablesHaveTypes }
{}

/// In an expression that the check finds no fault in, where names are in code what they are to the check, each name that stands alone is no method.
///
/// The Go specification, "Declarations and scope", "Selectors".
pub fn names_are_no_methods<T, S, D, P>()
    ensures { NamesAreNoMethods T S D P }
{}

/// So it is in the functions of packages of which nothing is reported.
pub fn functions_name_no_methods()
    ensures { FunctionsNameNoMethods }
{
    bodies_are_between_braces();
    functions_are_placed();
    functions_have_one_table();
    imports_bind_theirs();
    locals_are_declarations();
    objects_are_of_faultless();
}

/// In a package of which nothing is reported each piece of a function breaks no rule; each name in it is in code what it is to the check, methods apart, and
/// over what its type is over, where the constants that names stand for are over what their types are over. So what is said of pieces above is so of these.
///
/// The Go specification, "Declarations and scope", "Constants", "Statements".
pub fn pieces_are_clear()
    ensures { PiecesAreClear }
{
    bodies_are_between_braces();
    functions_are_placed();
    functions_have_one_table();
    imports_bind_theirs();
    locals_are_declarations();
    objects_are_of_faultless();
}

/// A program of the objects of parts that can be run comes to what its functions mean, by their trees, where their variables, operators, calls and `return`s
/// are typed; that `break` and `continue` stand in loops and that bodies end as they must is no premise.
pub fn objects_run_as_typed()
    ensures { ObjectsRunAsTyped }
{
    fitting_programs_run_as_meant();
    objects_are_code_of_sources();
    sources_end_well();
}
