//! Laws of the check of function bodies, with nothing to run.
ghost use Rattle.go_body_core.specs.Agreement.{AlikeRulesGiveOne};
ghost use Rattle.go_body_core.specs.Laws.{BodiesHaveOccurrences};
ghost use Rattle.go_body_core.specs.WellFormed.{PiecesAreOfGrammar};

/// Two rules that note the same of each piece of a function, and by which the names that it declares mean the same, have the same list of
/// declarations, and give the same.
pub fn alike_rules_give_one<X, N>()
    ensures { AlikeRulesGiveOne X N }
{}

/// What is noted of a function of the grammar stands where its occurrences stand, with their roles and in their order: each occurrence has
/// exactly one outcome.
pub fn bodies_have_occurrences()
    ensures { BodiesHaveOccurrences }
{}

/// The pieces of a function of the grammar are of the grammar.
pub fn pieces_are_of_grammar()
    ensures { PiecesAreOfGrammar }
{}
