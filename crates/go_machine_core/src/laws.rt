//! Laws of the machine, with nothing to run.
ghost use Rattle.go_machine_core.specs.Laws.{BudgetsAgree, SpentMeansAllSteps, TruthsAreBits};

/// A run that spent its steps did all of them, and is at its next instruction.
pub fn spent_means_all_steps()
    ensures { SpentMeansAllSteps }
{}

/// With more steps a run that was over comes to the same, and what was printed by one that spent its steps stays.
pub fn budgets_agree()
    ensures { BudgetsAgree }
{}

/// What compares words, and what turns a truth round, gives 0 or 1.
///
/// The Go specification, "Comparison operators", "Logical operators".
pub fn truths_are_bits()
    ensures { TruthsAreBits }
{}
