//! Laws of runs of sources, with nothing to run.
ghost use Rattle.go_meaning_laws.specs.program_meaning.Laws.{ProgramsRunAsMeant};

use crate::source_meaning::meant_code_means_the_source;
use go_machine_core::runs::answers_are_one;

/// A program that can be run, and whose functions are the code of sources that mean something, comes to what they mean: it ends with an output exactly
/// when they do, and panics with a value and an output exactly when they do; no instruction of it lacks what it asks for; and where its steps are spent, what it printed is a
/// beginning of what they print.
pub fn programs_run_as_meant()
    ensures { ProgramsRunAsMeant }
{
    meant_code_means_the_source();
    answers_are_one();
}
