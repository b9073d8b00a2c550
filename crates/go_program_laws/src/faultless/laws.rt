//! Laws of the functions of workspaces and of the runs of their programs, with nothing to run.
ghost use Rattle.go_program_laws.specs.faultless.Called.{CallsAreServed, MethodsAreDeclared, MethodsGiveTheirs};
ghost use Rattle.go_program_laws.specs.faultless.Parts.{PartsAreAmong, PartsAreSeenAlike, PartsShowTheirTypes};
ghost use Rattle.go_program_laws.specs.faultless.Runs.{ReachedProgramsRun};
ghost use Rattle.go_program_laws.specs.faultless.Served.{ConstantsAreServed, FunctionsAreServed, IntegersAreGiven, NamesAreRead};

use crate::calls::{
    calls_refer_to_theirs, functions_keep_types, integers_have_values, parts_are_read,
    parts_tell_kept,
};
use go_body_core::file::functions_are_placed;
use go_body_core::function::{functions_have_one_table, locals_are_declarations};
use go_emit_core::{bodies_are_between_braces, objects_are_of_faultless};
use go_meaning_laws::fitting_sources::fitting_means_something;
use go_meaning_laws::program_meaning::programs_run_as_meant;
use go_snap_core::whole_workspace::{check_is_local, imports_bind_theirs};
use go_workspace_laws::parts_are_fit;

/// The names of the files of a workspace come in code to the same over what all its packages tell and over what those tell that a package reaches.
///
/// The Go specification, "Packages", "Import declarations".
pub fn parts_are_seen_alike()
    ensures { PartsAreSeenAlike }
{
    check_is_local();
    imports_bind_theirs();
}

/// The packages of a workspace show as types what their names mean where a type is written, to each package that reaches them, and each knows its own types so:
/// the name of an alias means the alias's target.
///
/// The Go specification, "Exported identifiers", "Qualified identifiers", "Import declarations", "Alias declarations".
pub fn parts_show_their_types()
    ensures { PartsShowTheirTypes }
{
    check_is_local();
    imports_bind_theirs();
    parts_are_read();
}

/// So each part of a workspace stands among the others as the laws on functions ask.
///
/// The Go specification, "Packages".
pub fn parts_are_among()
    ensures { PartsAreAmong }
{
    parts_are_fit();
    parts_are_read();
    parts_are_seen_alike();
    parts_show_their_types();
}

/// Integer literals have values in the functions of a workspace.
///
/// The Go specification, "Integer literals".
pub fn integers_are_given()
    ensures { IntegersAreGiven }
{
    integers_have_values();
    parts_are_read();
}

/// The constants that names stand for in the functions of a workspace are of types over what their values are.
///
/// The Go specification, "Constants".
pub fn constants_are_served()
    ensures { ConstantsAreServed }
{
    parts_are_fit();
    functions_keep_types();
    parts_tell_kept();
}

/// Each name of the functions of a workspace is in code what it is to the check, and a method of an operand over `int` or `bool` gives in code what its signature
/// gives: it is the one that is declared there.
///
/// The Go specification, "Declarations and scope", "Selectors".
pub fn names_are_read()
    ensures { NamesAreRead }
{
    parts_are_fit();
    check_is_local();
    bodies_are_between_braces();
    functions_are_placed();
    functions_have_one_table();
    imports_bind_theirs();
    locals_are_declarations();
    objects_are_of_faultless();
}

/// A method of a type over `int` or `bool`, to a function of a package, is one that is declared of a type over this that the package knows, of the signature that
/// is there.
///
/// The Go specification, "Method declarations", "Selectors".
pub fn methods_are_declared()
    ensures { MethodsAreDeclared }
{}

/// What such a method comes to in the code of a package of a workspace gives what its signature gives.
///
/// The Go specification, "Method declarations", "Calls".
pub fn methods_give_theirs()
    ensures { MethodsGiveTheirs }
{
    parts_are_fit();
    check_is_local();
    imports_bind_theirs();
}

/// The calls of a function lead to functions that take their arguments, and receivers, where the functions and methods to which it refers are there, and take and
/// give words of the signatures by which its calls were checked.
///
/// The Go specification, "Calls", "Function declarations", "Method declarations".
pub fn calls_are_served()
    ensures { CallsAreServed }
{
    bodies_are_between_braces();
    functions_are_placed();
    functions_have_one_table();
    imports_bind_theirs();
    locals_are_declarations();
    objects_are_of_faultless();
    calls_refer_to_theirs();
    names_are_read();
    constants_are_served();
}

/// So all that the laws on functions ask beside the check is so of these functions, where their calls lead to functions that take their arguments.
///
/// The Go specification, "Packages", "Constants", "Integer literals".
pub fn functions_are_served()
    ensures { FunctionsAreServed }
{
    integers_are_given();
    constants_are_served();
    names_are_read();
}

/// A program that can be run, and whose functions are the code of sources, of which those that are reached have no faults, comes to what they mean. A source
/// that no reference reaches may be as it will.
///
/// The Go specification, "Program execution".
pub fn reached_programs_run()
    ensures { ReachedProgramsRun }
{
    fitting_means_something();
    programs_run_as_meant();
}
