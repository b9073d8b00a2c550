//! Laws of runs, with nothing to run.
ghost use Rattle.go_machine_core.specs.runs.Laws.{AnswersAreOne, ImportsComeFirst, SpentDoesAllSteps};
ghost use Rattle.go_machine_core.specs.runs.Samples.{SamplesRun};

use crate::spent_means_all_steps;

/// A program has no `main`, or reaches what cannot be run, or can be run, and no two of these; and what begins it is one.
pub fn answers_are_one()
    ensures { AnswersAreOne }
{}

/// A package is initialised behind those that it imports.
///
/// The Go specification, "Program initialization".
pub fn imports_come_first()
    ensures { ImportsComeFirst }
{}

/// A run that is answered to be spent did all its steps, and the program is at its next instruction.
pub fn spent_does_all_steps()
    ensures { SpentDoesAllSteps }
{
    spent_means_all_steps();
}

/// Programs that were worked out by hand, each instruction in one of them.
pub fn samples_run()
    ensures { SamplesRun }
{}
