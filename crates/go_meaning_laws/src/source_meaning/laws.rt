//! The law of stack code, with nothing to run.
ghost use Rattle.go_meaning_laws.specs.source_meaning.Laws.{MeantCodeMeansTheSource};
ghost use Rattle.go_meaning_laws.specs.source_meaning.Samples.{SampleMeans};

use go_machine_core::budgets_agree;

/// The code of a program does what its source means, wherever that means something: it ends with the same output, or panics with the same value and output, and is never
/// stuck; and where neither ends, what each printed is a beginning of what the other prints.
pub fn meant_code_means_the_source()
    ensures { MeantCodeMeansTheSource }
{
    budgets_agree();
}

/// A program with what it means, worked out by hand: it means something, whatever the bounds.
pub fn sample_means()
    ensures { SampleMeans }
{}
