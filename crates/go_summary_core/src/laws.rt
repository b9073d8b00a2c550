//! Laws of summaries and of what is seen by them.
ghost use Rattle.go_summary_core.specs.Laws.{HiddenNamesAreKnown, HiddenNamesDoNotCount, ViewsTellNothingElse, ViewsTellSummaries};

/// A law, with nothing to run: a view tells of the package of each summary exactly what the summary tells: its types by their keys, what
/// it shows behind a dot, and what its declarations are.
pub fn views_tell_what_summaries_do()
    ensures { ViewsTellSummaries }
{}

/// A law, with nothing to run: of a path that no summary has a view tells nothing.
pub fn views_tell_nothing_else()
    ensures { ViewsTellNothingElse }
{}

/// A law, with nothing to run: what is not exported does not count in a summary, but for the spellings of names: two packages that export the
/// same, with the same faces and types, have the same summary but for these; and where others see the same names, the very same.
pub fn hidden_names_do_not_count()
    ensures { HiddenNamesDoNotCount }
{}

/// A law, with nothing to run: of a name that is not exported a summary tells whether the package block has it: N2 is apart from N3.
pub fn hidden_names_are_known()
    ensures { HiddenNamesAreKnown }
{}
