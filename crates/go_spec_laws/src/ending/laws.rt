//! Laws of what ends a function, with nothing to run.
ghost use Rattle.go_spec_laws.specs.ending.FunctionLaws.{FunctionsHaveTheirFaults, LackedReturnsAreFaults};
ghost use Rattle.go_spec_laws.specs.ending.Laws.{BreaksAreFound, EndingsAreTerminating, StraysAreFaults};
ghost use Rattle.go_spec_laws.specs.ending.Samples.{WorkedEnds, WorkedJumps};

/// What is found to end a list of statements is what the Go specification lists, and nothing else.
///
/// The Go specification, "Terminating statements".
pub fn endings_are_terminating()
    ensures { EndingsAreTerminating }
{}

/// A statement is found to break out of the `for` around it exactly where a `break` stands in it that no further `for` is around.
///
/// The Go specification, "Break statements".
pub fn breaks_are_found()
    ensures { BreaksAreFound }
{}

/// Each `break` and each `continue` of a body that no `for` is around has its fault, in order, and nothing else has.
///
/// The Go specification, "Break statements", "Continue statements".
pub fn strays_are_faults()
    ensures { StraysAreFaults }
{}

/// A function has a fault at its closing brace exactly where it declares results and its body does not end in a terminating statement.
///
/// The Go specification, "Function declarations", "Terminating statements", "Handling panics".
pub fn lacked_returns_are_faults()
    ensures { LackedReturnsAreFaults }
{}

/// The faults of a function are exactly those of its pieces, of the names that these declare, of each `break` and `continue` that no `for` is around,
/// and of its end where it lacks a return.
///
/// The Go specification, "Blocks", "Function declarations", "Terminating statements", "Break statements", "Continue statements".
pub fn functions_have_their_faults()
    ensures { FunctionsHaveTheirFaults }
{}

/// Functions whose faults at their ends, and those of `break` and `continue`, are what was worked out by hand.
pub fn worked_functions()
    ensures ends { WorkedEnds }
    ensures jumps { WorkedJumps }
{}
