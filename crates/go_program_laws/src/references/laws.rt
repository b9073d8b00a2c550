//! Laws of the functions to which references lead, with nothing to run.
ghost use Rattle.go_program_laws.specs.references.Callers.{OwnCalleesTakeWords, OwnReferencesTakeWords, OwnSignaturesAreTheirs, PartsOfAPathAreOne};
ghost use Rattle.go_program_laws.specs.references.Callees.{DeclarationsArePlaced, FunctionsTakeWords, ReachedAreInside, ReachedTakeWords, ReferencesLeadToFunctions};
ghost use Rattle.go_program_laws.specs.references.Headers.{HeadersAreOfSignatures};
ghost use Rattle.go_program_laws.specs.references.Kept.{MethodsAreKept, ProgramsRun, ReferencesAreKept};
ghost use Rattle.go_program_laws.specs.references.Methods.{MethodsAreOfParts, ReceiversTakeWords};
ghost use Rattle.go_program_laws.specs.references.Own.{DeclaredFunctionsAreOwn, OwnFunctionsAreDeclared};
ghost use Rattle.go_program_laws.specs.references.Reached.{ReachedAreInProgram, SeenAreInProgram};
ghost use Rattle.go_program_laws.specs.references.Shown.{FunctionsAreOfParts, FunctionsHaveNumbers, HeadersGiveTheirResults, NamesLeadToNoMethods, SignaturesAreAlike};

use crate::calls::{references_lead_to_theirs, starts_take_nothing};
use crate::faultless::{
    calls_are_served, functions_are_served, methods_are_declared, methods_give_theirs,
    parts_are_among, parts_show_their_types, reached_programs_run,
};
use crate::types::functions_fit;
use go_body_core::file::functions_are_placed;
use go_body_core::function::{functions_have_one_table, locals_are_declarations};
use go_emit_core::declared_core::positions_are_exact;
use go_emit_core::{bodies_are_between_braces, objects_are_of_faultless};
use go_meaning_laws::object_sources::objects_are_code_of_sources;
use go_snap_core::whole_workspace::{check_is_local, imports_bind_theirs};

/// Each declaration outside functions is at the place of its identifier.
///
/// The Go specification, "Declarations and scope".
pub fn declarations_are_placed()
    ensures { DeclarationsArePlaced }
{}

/// The number to which a reference leads is that of the function that is declared there, of whose package nothing is reported.
///
/// The Go specification, "Calls", "Packages".
pub fn references_lead_to_functions()
    ensures { ReferencesLeadToFunctions }
{
    declarations_are_placed();
    references_lead_to_theirs();
    parts_are_among();
    functions_have_one_table();
    functions_are_placed();
}

/// A function of which code is made takes a word for each of its parameters, over the type that is written for it, behind what its receiver is over.
///
/// The Go specification, "Function types", "Method declarations".
pub fn functions_take_words()
    ensures { FunctionsTakeWords }
{
    bodies_are_between_braces();
    functions_are_placed();
    functions_have_one_table();
    imports_bind_theirs();
    locals_are_declarations();
    objects_are_of_faultless();
}

/// In a program that can be run code is made of each function to which references lead.
///
/// The Go specification, "Program execution".
pub fn reached_are_inside()
    ensures { ReachedAreInside }
{
    objects_are_code_of_sources();
}

/// In a program of a workspace that can be run a function to which a reference leads takes words over the types of its own parameters, and gives what its own
/// result gives.
///
/// The Go specification, "Calls", "Function types".
pub fn reached_take_words()
    ensures { ReachedTakeWords }
{
    references_lead_to_functions();
    functions_take_words();
    reached_are_inside();
    parts_show_their_types();
}

/// The parameters of the signature that is written in a header are of the types by which the header is checked.
///
/// The Go specification, "Function types", "Declarations and scope".
pub fn headers_are_of_signatures()
    ensures { HeadersAreOfSignatures }
{
    bodies_are_between_braces();
    functions_are_placed();
    functions_have_one_table();
    imports_bind_theirs();
    locals_are_declarations();
    objects_are_of_faultless();
}

/// What a package has for a function among its own declarations is one that it declares, by the signature that is written there.
///
/// The Go specification, "Function declarations".
pub fn own_functions_are_declared()
    ensures { OwnFunctionsAreDeclared }
{}

/// What a package declares as a function, or as a method, it has for one among its own declarations, by the signature that is written there.
///
/// The Go specification, "Function declarations", "Method declarations".
pub fn declared_functions_are_own()
    ensures { DeclaredFunctionsAreOwn }
{
    positions_are_exact();
}

/// The signature that a package has for one of its own functions is the one that is written in the header there.
///
/// The Go specification, "Function declarations".
pub fn own_signatures_are_theirs()
    ensures { OwnSignaturesAreTheirs }
{
    positions_are_exact();
}

/// In a program of a workspace that can be run each function that is reached takes words over the parameters of the signature by which its own package checks
/// calls, behind what its receiver is over.
///
/// The Go specification, "Calls", "Function declarations".
pub fn own_callees_take_words()
    ensures { OwnCalleesTakeWords }
{
    parts_are_among();
    functions_take_words();
    reached_are_inside();
    headers_are_of_signatures();
    own_signatures_are_theirs();
}

/// The parts of a workspace that are of one path are one part.
///
/// The Go specification, "Packages".
pub fn parts_of_a_path_are_one()
    ensures { PartsOfAPathAreOne }
{}

/// In a program of a workspace that can be run, where a reference of a package leads to a function of its own that is reached, this takes words over the
/// parameters of the signature by which the package checks calls of it.
///
/// The Go specification, "Calls", "Function declarations".
pub fn own_references_take_words()
    ensures { OwnReferencesTakeWords }
{
    parts_of_a_path_are_one();
    references_lead_to_functions();
    own_callees_take_words();
}

/// In a program of a workspace that can be run each function that is reached is of a package that has an object, which is the package that is run, or one that
/// this reaches by imports.
///
/// The Go specification, "Program initialization and execution", "Import declarations".
pub fn reached_are_in_program()
    ensures { ReachedAreInProgram }
{
    check_is_local();
    imports_bind_theirs();
    references_lead_to_theirs();
    declarations_are_placed();
    parts_of_a_path_are_one();
    parts_are_among();
    functions_have_one_table();
    functions_are_placed();
}

/// In a program of a workspace that can be run nothing is reported of the packages that a package of the program reaches by imports, and they are of the program.
///
/// The Go specification, "Program initialization and execution", "Import declarations".
pub fn seen_are_in_program()
    ensures { SeenAreInProgram }
{
    check_is_local();
    imports_bind_theirs();
    references_lead_to_theirs();
    declarations_are_placed();
    parts_of_a_path_are_one();
}

/// A function of a package of which nothing is reported has a number in the program.
///
/// The Go specification, "Function declarations", "Program execution".
pub fn functions_have_numbers()
    ensures { FunctionsHaveNumbers }
{}

/// What the check of a package takes for a function is one that a package declares under a name of its block, itself or one that it reaches, and code has for it
/// what its signature gives.
///
/// The Go specification, "Function declarations", "Qualified identifiers", "Exported identifiers".
pub fn functions_are_of_parts()
    ensures { FunctionsAreOfParts }
{}

/// A function to which a name of a package block leads has no receiver.
///
/// The Go specification, "Method declarations", "Declarations and scope".
pub fn names_lead_to_no_methods()
    ensures { NamesLeadToNoMethods }
{}

/// What a call gives by the signature of a function of which code is made is what the function's own header gives.
///
/// The Go specification, "Function types", "Calls".
pub fn headers_give_their_results()
    ensures { HeadersGiveTheirResults }
{
    bodies_are_between_braces();
    functions_are_placed();
    functions_have_one_table();
    imports_bind_theirs();
    locals_are_declarations();
    objects_are_of_faultless();
}

/// The signature of a function gives the same in each package that reaches its own, and words that are over its parameters there are so here.
///
/// The Go specification, "Packages", "Exported identifiers", "Function types".
pub fn signatures_are_alike()
    ensures { SignaturesAreAlike }
{
    check_is_local();
    imports_bind_theirs();
}

/// A method of a type over `int` or `bool` that a package knows, of its own types or another package's, is a function that the type's package declares, and its
/// receiver is over the same there.
///
/// The Go specification, "Method declarations", "Selectors", "Exported identifiers".
pub fn methods_are_of_parts()
    ensures { MethodsAreOfParts }
{
    declared_functions_are_own();
    parts_are_among();
    check_is_local();
    imports_bind_theirs();
}

/// A function of which code is made takes one word over its receiver, where the base of the receiver is a type over this.
///
/// The Go specification, "Method declarations".
pub fn receivers_take_words()
    ensures { ReceiversTakeWords }
{
    bodies_are_between_braces();
    functions_are_placed();
    functions_have_one_table();
    imports_bind_theirs();
    locals_are_declarations();
    objects_are_of_faultless();
}

/// In a program of a workspace that can be run each function to which a function of the program refers is there, of its own package or of another; it takes words
/// over the parameters of the signature by which its calls were checked, and gives what the caller's code has for it.
///
/// The Go specification, "Calls", "Function declarations", "Qualified identifiers".
pub fn references_are_kept()
    ensures { ReferencesAreKept }
{
    functions_are_of_parts();
    seen_are_in_program();
    functions_have_numbers();
    parts_are_among();
    names_lead_to_no_methods();
    own_references_take_words();
    own_signatures_are_theirs();
    headers_give_their_results();
    reached_are_inside();
    signatures_are_alike();
}

/// In a program of a workspace that can be run each method of a type over `int` or `bool` to which a function of the program refers is there, of a type of its own
/// package or of another; it takes a word over its receiver and words over the parameters of the signature by which its calls were checked, and gives what the
/// caller's code has for it.
///
/// The Go specification, "Calls", "Method declarations", "Selectors".
pub fn methods_are_kept()
    ensures { MethodsAreKept }
{
    methods_are_declared();
    methods_give_theirs();
    methods_are_of_parts();
    receivers_take_words();
    seen_are_in_program();
    functions_have_numbers();
    parts_are_among();
    own_references_take_words();
    own_signatures_are_theirs();
    headers_give_their_results();
    reached_are_inside();
    signatures_are_alike();
}

/// A program of a snapshot that can be run comes to what its sources mean.
///
/// The Go specification, "Packages", "Program initialization and execution".
pub fn programs_run()
    ensures { ProgramsRun }
{
    reached_are_in_program();
    references_are_kept();
    methods_are_kept();
    functions_are_served();
    calls_are_served();
    functions_fit();
    parts_are_among();
    starts_take_nothing();
    objects_are_code_of_sources();
    reached_programs_run();
}
