//! Which words are identifiers and keywords.
ghost use Rattle.go_spec_laws.specs.front.WordLaws.{IdentifiersAreWords};

/// A law, with nothing to run: the words that are taken for identifiers and for keywords where a name is made of an import's path are those of the Go
/// specification, "Identifiers" and "Keywords".
pub fn identifiers_are_words()
    ensures { IdentifiersAreWords }
{}
