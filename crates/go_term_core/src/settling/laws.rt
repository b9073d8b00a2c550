//! Laws of settling.
ghost use Rattle.go_term_core.specs.settling.Clean.{SettlingCleans};
ghost use Rattle.go_term_core.specs.settling.Laws.{SettledIsApart, SettledMentionsWritten, SettlingIsIdempotent, SettlingIsLocal};

/// A law, with nothing to run: a settled term settled again, with the same kinds, is the same.
pub fn settling_is_idempotent()
    ensures { SettlingIsIdempotent }
{}

/// A law, with nothing to run: a defined type that a settled term mentions is a type, and the written term mentions it.
pub fn settled_mentions_written()
    ensures { SettledMentionsWritten }
{}

/// A law, with nothing to run: the methods of each interface type in a settled term differ by name.
pub fn settled_is_apart()
    ensures { SettledIsApart }
{}

/// A law, with nothing to run: where two look-ups agree on the defined types that a written term mentions, it is settled alike.
pub fn settling_is_local()
    ensures { SettlingIsLocal }
{}

/// A law, with nothing to run: nothing is amiss in a settled term, and a term in which nothing is amiss is settled as it is.
pub fn settling_cleans()
    ensures { SettlingCleans }
{}
