//! Laws of the variables, parameters and types of functions, with nothing to run.
ghost use Rattle.go_program_laws.specs.types.Fits.{FunctionsFit};
ghost use Rattle.go_program_laws.specs.types.Locals.{LocalsAreTyped};
ghost use Rattle.go_program_laws.specs.types.Params.{ParametersAreTyped};
ghost use Rattle.go_program_laws.specs.types.Scope.{VariablesAreDeclared};
ghost use Rattle.go_program_laws.specs.types.Sources.{SourcesFit};
ghost use Rattle.go_program_laws.specs.types.Written.{TypesAreOver};

use go_body_core::file::functions_are_placed;
use go_body_core::function::{functions_have_one_table, locals_are_declarations};
use go_emit_core::{bodies_are_between_braces, objects_are_of_faultless};
use go_snap_core::whole_workspace::imports_bind_theirs;

/// In a package of which nothing is reported a type that is written in the header of a function or in a specification is over what code takes it for, and so
/// are the type of a receiver and the one result of a function, where the packages that are reached show the types that their names mean.
///
/// The Go specification, "Types", "Function types", "Variable declarations".
pub fn types_are_over()
    ensures { TypesAreOver }
{
    bodies_are_between_braces();
    functions_are_placed();
    functions_have_one_table();
    imports_bind_theirs();
    locals_are_declarations();
    objects_are_of_faultless();
}

/// So the receiver and the parameters of a function of which code is made are over what their types are over.
///
/// The Go specification, "Function types", "Method declarations".
pub fn parameters_are_typed()
    ensures { ParametersAreTyped }
{
    bodies_are_between_braces();
    functions_are_placed();
    functions_have_one_table();
    imports_bind_theirs();
    locals_are_declarations();
    objects_are_of_faultless();
}

/// A variable is over what its declaration gives it: what its type is over, or its value. A name that is declared alone is the first of its block.
///
/// The Go specification, "Variable declarations", "Short variable declarations".
pub fn locals_are_typed()
    ensures { LocalsAreTyped }
{
    bodies_are_between_braces();
    functions_are_placed();
    functions_have_one_table();
    imports_bind_theirs();
    locals_are_declarations();
    objects_are_of_faultless();
}

/// Each name in the body of a function that comes to a variable comes to one that is declared before it, in a block around it.
///
/// The Go specification, "Declarations and scope", "Blocks".
pub fn variables_are_declared()
    ensures { VariablesAreDeclared }
{
    bodies_are_between_braces();
    functions_are_placed();
    functions_have_one_table();
    imports_bind_theirs();
    locals_are_declarations();
    objects_are_of_faultless();
}

/// A function of which code is made fits, in a package of which nothing is reported, where its calls lead to functions that take their arguments, calls of
/// methods of operands over `int` and `bool` give what their signatures give, constants are of types over what their values are, and integer literals have values.
///
/// The Go specification, "Declarations and scope", "Statements", "Expressions".
pub fn functions_fit()
    ensures { FunctionsFit }
{
    bodies_are_between_braces();
    functions_are_placed();
    functions_have_one_table();
    imports_bind_theirs();
    locals_are_declarations();
    objects_are_of_faultless();
}

/// So does each source of the objects of parts of which code is made, where the names of their files come to the same over what all of the parts tell and over
/// what those tell that a part reaches.
///
/// The Go specification, "Packages", "Program execution".
pub fn sources_fit()
    ensures { SourcesFit }
{
    bodies_are_between_braces();
    functions_are_placed();
    functions_have_one_table();
    imports_bind_theirs();
    locals_are_declarations();
    objects_are_of_faultless();
}
