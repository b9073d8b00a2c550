//! Laws of expressions.
ghost use Rattle.go_expr_core.specs.Laws.{UsesAreOccurrences, ExpressionsAreLocal};
ghost use Rattle.go_expr_core.specs.Needed.{DenotedByNeededNames};
ghost use Rattle.go_expr_core.specs.Locality.{ExpressionsAreSeenAlike};
ghost use Rattle.go_expr_core.specs.Respelling.{OwnNameDecides};
ghost use Rattle.go_expr_core.specs.Samples.{SampleExpressions};

/// A law, with nothing to run: what is noted of an expression of the grammar, or of a type, stands where its occurrences stand, with
/// their roles and in their order: each occurrence has exactly one outcome, and no other place has one.
pub fn uses_are_occurrences<T, S, D, P>()
    ensures { UsesAreOccurrences T S D P }
{}

/// A law, with nothing to run: another spelling of one identifier leaves what its outcome depends on as it was, in all forms of
/// expressions and of types that are written out. Under its new spelling it has what the rule of its context gives for that.
pub fn own_name_decides<T, S, D, P>()
    ensures { OwnNameDecides T S D P }
{}

/// A law, with nothing to run: look-ups that agree on each name of an expression that is looked up, where it stands, make the same of
/// it, if what they make of a struct type that is written out looks at the names in it alone.
pub fn expressions_are_local<T, S, D, P>()
    ensures { ExpressionsAreLocal T S D P }
{}

/// A law, with nothing to run: look-ups that agree on each name of an expression that is looked up, where it stands, and on each struct
/// type that is written out before a literal in it, make the same of it. It denotes the same where they agree on those outside the
/// elements of literals.
pub fn expressions_are_seen_alike<T, S, D, P>()
    ensures { ExpressionsAreSeenAlike T S D P }
{}

/// A law, with nothing to run: look-ups that agree on each name of an expression outside the elements of literals, where it stands,
/// make it denote the same, if what they make of a struct type that is written out looks at the names in it alone.
pub fn denoted_by_needed_names<T, S, D, P>()
    ensures { DenotedByNeededNames T S D P }
{}

/// A law, with nothing to run: what a few expressions have, denote and break.
pub fn sample_expressions()
    ensures { SampleExpressions }
{}
