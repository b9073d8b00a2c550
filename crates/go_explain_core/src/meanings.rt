//! What the rules mean.
ghost use Rattle.std.specs.Prelude.{◌≡◌};
ghost use Rattle.go_explain_core.specs.Meanings.{rule_meaning};

use go_text_core::Rule;

// What the rules mean, in their order.
const MEANINGS: [&str; 84] = [
    "a character that no token may have, a text that is not UTF-8, or a file that cannot be read", // L1
    "a string or a comment without its end", // L2
    "a literal that is written wrongly, or of a kind that is not supported yet", // L3
    "a syntax error, or a form of Go that is not supported yet, such as a slice, a switch or a generic type", // P1
    "something is nested more than 200 deep", // P2
    "the package clause differs from that of the first file in this folder", // K2
    "a package cannot be named _", // K3
    "the package is not checked, since a file of it does not parse", // K4
    "this is not an import path", // I1
    "this module has no package of this path; the standard library and other modules are not supported yet", // I2
    "an internal package is imported from outside the folder that holds it", // I3
    "packages that import one another in a circle", // I4
    "a package main cannot be imported", // I5
    "the imported package is not checked, since it has K2, K3 or K4", // I6
    "an import that is not used", // I7
    "the name is declared a second time in the same block", // B1
    "an import brings a name that the package declares", // B2
    "init, and main in package main, must be functions without parameters and results", // B3
    "no name to the left of := is new", // B4
    "a second field or method of this name", // B5
    "the receiver is of a type that this package does not define, or of one defined as a pointer or an interface", // B6
    "no declaration of this name holds here", // N1
    "the package declares this name, but does not export it", // N2
    "the package does not declare this name", // N3
    "a package stands where a value is wanted", // N4
    "a type stands where a value is wanted", // N5
    "this is not a type, or, before a dot, not a package", // N6
    "a predeclared name of Go that is not supported yet", // N7
    "the blank identifier _ has no value", // N8
    "the import that brings this name has a fault", // N9
    "the type has no field or method of this name", // S1
    "ambiguous: several embedded fields have a member of this name", // S2
    "the member belongs to another package, and is not exported", // S3
    "what stands before the dot has no type", // S4
    "the method needs a pointer, and this value is none and has no address", // S5
    "a pointer to a pointer or to an interface has no members", // S6
    "a defined pointer type has no methods", // S7
    "_ names no member", // S8
    "the struct has no field of this name", // F1
    "the field belongs to another package, and is not exported", // F2
    "a field of an embedded struct cannot be set by its name here", // F3
    "the same field is set more than once", // F4
    "some elements name their field, and some do not", // F5
    "without names of fields there must be one value for each field", // F6
    "an element is for a field of another package that is not exported", // F7
    "the type before the braces is no struct", // F8
    "this is no function, method or type, and cannot be called", // C1
    "too many or too few arguments", // C2
    "an argument is of another type than its parameter", // C3
    "this value cannot be converted to this type", // C4
    "a type that contains itself, or an alias that leads back to itself", // Y1
    "a pointer type, or a pointer to an interface, cannot be embedded", // Y2
    "the operands do not fit the operator, or no single value stands where one is wanted", // Y3
    "a value is of another type than is wanted, or there are too many or too few values", // Y4
    "the function has a result, and its end can be reached without a return", // Y5
    "break and continue may stand only inside a for", // Y6
    "not a constant of bool, int or string, or one that is out of range, divides by 0 or is defined through itself", // Y7
    "only a call may stand alone as a statement", // Y8
    "not supported yet: a function that is used as a value, a shift or a bit operator, string of an int, a package variable whose initialiser is no constant, or a constant of more than 64 bits", // X1
    "a request names a package that is not there, or that is not checked", // Q1
    "a request names a place where no identifier stands", // Q2
    "a request names an identifier that is not a use of a name", // Q3
    "a request names a place outside the module of its session", // Q4
    "the module is held by another session", // O1
    "this is not a module path", // O2
    "the path of this module lies inside or around that of a module that another session holds, or that was ever built", // O3
    "32 sessions are open, or 32 other modules are held or were ever built", // O4
    "no session of this number is open", // O5
    "this gives no import path (1 to 16 elements of letters, digits and - . _ ~, with no dot at their ends), or lies outside the module", // E1
    "the name of a Go file may have letters, digits and _ - . alone, and at most 64 of them", // E2
    "the text is longer than 1,048,576 bytes", // E3
    "more than 256 files in one package", // E4
    "more than 128 packages in one module of a session", // E5
    "the history of the daemon is full, at 1,048,576 events: it must be started anew", // H1
    "the service has been stopped", // H2
    "a result that nobody waits for", // Z1
    "memory ran out before this was done", // M0
    "there is no function main to be run", // J1
    "a function that would be run uses what cannot be run", // J2
    "the run took more steps than it was given", // J3
    "a line of a request is too long", // V1
    "a line is no request", // V2
    "no command of this name", // V3
    "the requests cannot be read any further", // V4
];

/// What a rule means, in one line without its end.
pub fn meaning(rule: Rule) -> &'static str
    ensures { result.now ≡ rule_meaning rule }
{
    MEANINGS[rule as usize]
}
