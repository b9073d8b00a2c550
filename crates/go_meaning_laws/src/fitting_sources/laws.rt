//! Laws of programs that fit, with nothing to run.
ghost use Rattle.go_meaning_laws.specs.fitting_sources.Laws.{FittingMeansSomething};
ghost use Rattle.go_meaning_laws.specs.fitting_sources.RunLaws.{FittingProgramsRunAsMeant};

use crate::program_meaning::programs_run_as_meant;

/// A program of functions without faults in the run fragment means something, whatever the bounds: variables are declared before they are used and hold what
/// their types say, operators and calls take what their operands and arguments give, `return` gives what the function gives, `break` and `continue` stand in
/// loops, and a function with a result ends in a terminating statement.
///
/// The Go specification, "Declarations and scope", "Operators", "Calls", "Return statements", "Terminating statements", "Break statements".
pub fn fitting_means_something()
    ensures { FittingMeansSomething }
{}

/// A program that can be run, and whose functions are the code of sources without faults, comes to what they mean: that they mean something is no premise.
pub fn fitting_programs_run_as_meant()
    ensures { FittingProgramsRunAsMeant }
{
    fitting_means_something();
    programs_run_as_meant();
}
