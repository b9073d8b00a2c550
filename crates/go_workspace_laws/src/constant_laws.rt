//! Laws of what code takes the expressions of a package for, with nothing to run.
ghost use Rattle.go_workspace_laws.specs.ConstantLaws.{ConstantsAreOfTheCheck, PartsAreFit};

use go_body_core::file::functions_are_placed;
use go_body_core::function::{functions_have_one_table, locals_are_declarations};
use go_emit_core::{bodies_are_between_braces, objects_are_of_faultless};
use go_snap_core::whole_workspace::imports_bind_theirs;

/// Where nothing is reported of a package, each expression in the pieces of its functions is to code what it is to the check, which judges it where it
/// stands, by what the function's declarations bind its names to: code, where it is made of the expression, takes it for a constant exactly where it is one
/// over `int` or `bool` to the check, and then with the value that it has there. Where it calls no method, it is an operand to the check.
///
/// The Go specification, "Constant expressions": constant expressions may contain only constant operands and are evaluated at compile time, and always
/// exactly.
pub fn constants_are_of_the_check()
    ensures { ConstantsAreOfTheCheck }
{
    objects_are_of_faultless();
    functions_have_one_table();
    locals_are_declarations();
    functions_are_placed();
    imports_bind_theirs();
    bodies_are_between_braces();
}

/// The parts of the packages of a workspace are made from what this is said of: an input whose imports come to other packages than its own.
///
/// The Go specification, "Import declarations": it is illegal for a package to import itself, directly or indirectly.
pub fn parts_are_fit()
    ensures { PartsAreFit }
{}
