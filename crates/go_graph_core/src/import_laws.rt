//! Laws of what imports come to.
ghost use Rattle.go_graph_core.specs.ImportLaws.{HasTarget, HasNoOtherTarget, HasOneOutcome, CyclesAreAssembled, HasListOfEdges, CyclesAreDecided, HasOutcome, HasPlan, TextsAreStrings, TextsAreOccurrences, HasOneNumber, HasOnePackage};

/// A law, with nothing to run: cycles left aside, of the six cases, a package and the rules I1, I3, I2, I6 and I5,
/// exactly one holds of an import, with one answer.
pub fn one_target()
    ensures some { HasTarget }
    ensures only { HasNoOtherTarget }
{}

/// A law, with nothing to run: an import has one outcome at most.
pub fn one_outcome()
    ensures { HasOneOutcome }
{}

/// A law, with nothing to run: an import on a cycle stands in a package that is assembled.
pub fn cycles_are_assembled()
    ensures { CyclesAreAssembled }
{}

/// A law, with nothing to run: the imports of a file are, in order, the strings that its import declarations write, and the
/// n-th of them is the n-th import among the file's occurrences.
pub fn imports_are_occurrences()
    ensures strings { TextsAreStrings }
    ensures occurrences { TextsAreOccurrences }
{}

/// A law, with nothing to run: the edges of the packages of a workspace are those of a list, and whether one lies on a
/// cycle is decided.
pub fn cycles_are_decided()
    ensures listed { HasListOfEdges }
    ensures decided { CyclesAreDecided }
{}

/// A law, with nothing to run: each import has an outcome, and by `one_outcome` exactly one.
pub fn each_import_has_an_outcome()
    ensures { HasOutcome }
{}

/// A law, with nothing to run: a workspace has a plan.
pub fn each_workspace_has_a_plan()
    ensures { HasPlan }
{}

/// A law, with nothing to run: in a workspace a path has one number at most, and a number has one path and one package.
pub fn one_number()
    ensures number { HasOneNumber }
    ensures package { HasOnePackage }
{}
