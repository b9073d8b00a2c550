//! Laws of heads, with nothing to run.
ghost use Rattle.go_import_core.specs.head.Laws.{OutcomesStay, PlansStay};

/// What each import of a workspace comes to follows from the paths of the packages, the names in the clauses of their files, and the texts of their
/// imports.
///
/// The Go specification, "Import declarations".
pub fn outcomes_stay()
    ensures { OutcomesStay }
{}

/// A plan of a workspace is a plan of each workspace that has the same of these.
pub fn plans_stay()
    ensures { PlansStay }
{}
