//! Laws of another spelling in checked files.
ghost use Rattle.go_complete_core.specs.spelling.Functions.{CheckedFunctionsStay};
ghost use Rattle.go_complete_core.specs.spelling.Outer.{OuterTypesInFilesStay};
ghost use Rattle.go_complete_core.specs.spelling.Packages.{FileInitialisersStay, PackageBodiesStay, PackageInitialisersStay, TypesStay};

/// A law, with nothing to run: where one identifier of a function is spelled anew, in an expression, a type, its header or its receiver, it
/// stands in the context in which it stood, and the check of the function gives it what this context's rule gives for the new spelling.
///
/// The Go specification, "Declarations and scope".
pub fn checked_functions_stay()
    ensures { CheckedFunctionsStay }
{}

/// A law, with nothing to run: where one identifier of one initialiser of a package is spelled anew, it stands in the context in which it
/// stood, and has what this context's rule gives for the new spelling. What stands in front of its dot denotes what it denoted, through
/// chains of declarations too: what it needs cannot need the declaration of this initialiser, or neither is anything.
///
/// The Go specification, "Selectors", "Package initialization".
pub fn package_initialisers_stay()
    ensures { PackageInitialisersStay }
{}

/// A law, with nothing to run: so it is among all that the declarations of the file have, in order of their places.
pub fn file_initialisers_stay()
    ensures { FileInitialisersStay }
{}

/// A law, with nothing to run: where one identifier of the body of a function is spelled anew, the declarations of the package are what they
/// were, and the identifier stands in the context in which it stood, among all that its file has.
///
/// The Go specification, "Declarations and scope", "Blocks".
pub fn package_bodies_stay()
    ensures { PackageBodiesStay }
{}

/// A law, with nothing to run: where one identifier of a type outside functions is spelled anew, in a declaration of types, constants or
/// variables, or in the header of a function, it stands in the context in which it stood, among all that its file has, whatever the types and
/// the declarations of the package are then.
///
/// The Go specification, "Types", "Qualified identifiers".
pub fn outer_types_in_files_stay()
    ensures { OuterTypesInFilesStay }
{}

/// A law, with nothing to run: a package in which one identifier of an initialiser is spelled anew, or which has another body of a function,
/// has the types that it had.
pub fn types_stay()
    ensures { TypesStay }
{}
