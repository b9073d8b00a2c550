//! Laws of what names and calls of functions come to of which code is made, with nothing to run.
ghost use Rattle.go_program_laws.specs.calls.Clear.{PartsAreClear};
ghost use Rattle.go_program_laws.specs.calls.Constants.{ConstantsKeepTypes};
ghost use Rattle.go_program_laws.specs.calls.Integers.{PartsAreRead, PiecesHaveValues, SourcesHaveValues, TextsHaveValues};
ghost use Rattle.go_program_laws.specs.calls.Packages.{DeclarationsKeepTypes, FunctionsKeepTypes, PartsTellKept};
ghost use Rattle.go_program_laws.specs.calls.Places.{ReferencesLeadToTheirs};
ghost use Rattle.go_program_laws.specs.calls.References.{CallsReferToTheirs};
ghost use Rattle.go_program_laws.specs.calls.Starts.{StartsTakeNothing, TypedObjectsRun};

use crate::checked_sources::{objects_run_as_typed, pieces_are_clear};
use go_body_core::file::functions_are_placed;
use go_body_core::function::{functions_have_one_table, locals_are_declarations};
use go_emit_core::{bodies_are_between_braces, calls_name_their_own, objects_are_of_faultless};
use go_snap_core::whole_workspace::{check_is_local, imports_bind_theirs};
use go_workspace_laws::parts_are_fit;

/// Each integer literal of the tree of a text has a value in code, whatever names come to: so it is in each source of the objects of parts whose files are
/// read, and in each expression of the pieces of such a function.
///
/// The Go specification, "Integer literals", "Constants".
pub fn integers_have_values()
    ensures texts { TextsHaveValues }
    ensures sources { SourcesHaveValues }
    ensures pieces { PiecesHaveValues }
{}

/// The files of the parts of a workspace are read.
pub fn parts_are_read()
    ensures { PartsAreRead }
{}

/// What begins a program of the objects of parts, `main` and each `init` that runs, takes nothing and gives nothing.
///
/// The Go specification, "Package initialization", "Program execution".
pub fn starts_take_nothing()
    ensures { StartsTakeNothing }
{
    objects_are_of_faultless();
}

/// So a program of the objects of parts that can be run comes to what its functions mean, by their trees, where their variables, operators, calls and
/// `return`s are typed.
pub fn typed_objects_run()
    ensures { TypedObjectsRun }
{
    objects_run_as_typed();
    starts_take_nothing();
}

/// Where the constants that names stand for are of types over what their values are, so is each expression, and each name that a piece of a function declares.
///
/// The Go specification, "Constants", "Constant expressions", "Constant declarations", "Conversions".
pub fn constants_keep_types<T, S, D, P>()
    ensures { ConstantsKeepTypes T S D P }
{}

/// Where what packages tell of their constants is so, each constant that a package declares outside functions is of a type over what its value is.
///
/// The Go specification, "Constant declarations", "Package initialization".
pub fn declarations_keep_types()
    ensures { DeclarationsKeepTypes }
{}

/// So is each constant that a name of one of its functions stands for.
///
/// The Go specification, "Constant declarations", "Declarations and scope".
pub fn functions_keep_types()
    ensures { FunctionsKeepTypes }
{
    functions_have_one_table();
    locals_are_declarations();
    functions_are_placed();
}

/// The packages of a workspace tell such constants.
///
/// The Go specification, "Packages", "Import declarations", "Exported identifiers".
pub fn parts_tell_kept()
    ensures { PartsTellKept }
{
    check_is_local();
    imports_bind_theirs();
    declarations_keep_types();
}

/// In a part of a workspace of which nothing is reported each piece of a function breaks no rule, and each name in it is in code what it is to the check, methods
/// apart: that constants are of types over what their values are is no premise.
///
/// The Go specification, "Packages", "Constants", "Statements".
pub fn parts_are_clear()
    ensures { PartsAreClear }
{
    pieces_are_clear();
    functions_keep_types();
    parts_tell_kept();
    parts_are_fit();
    parts_are_read();
}

/// Where nothing is reported of a package, the reference of each call in a function is, in code, the declaration that the check says is called.
///
/// The Go specification, "Calls", "Declarations and scope", "Selectors".
pub fn calls_refer_to_theirs()
    ensures { CallsReferToTheirs }
{
    objects_are_of_faultless();
    functions_have_one_table();
    functions_are_placed();
    bodies_are_between_braces();
    calls_name_their_own();
}

/// Where what is declared outside functions is at the place of its identifier, the number that a reference leads to is that of the source that is declared there.
///
/// The Go specification, "Calls", "Function declarations", "Packages".
pub fn references_lead_to_theirs()
    ensures { ReferencesLeadToTheirs }
{}
