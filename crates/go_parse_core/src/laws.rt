//! Laws of the definitions.
//!
//! A whole tree has a semicolon behind each statement of a block, each field of a struct type, each method of an
//! interface type and each specification in parentheses. A text may leave out those before a closing mark (the Go
//! specification, "Semicolons"), but an empty statement keeps its semicolon. A tree of the text has none where the
//! text leaves it out.
ghost use Rattle.go_parse_core.specs.AliasSamples.{AliasesAreOfNames};
ghost use Rattle.go_parse_core.specs.Correct.{HasOneTree};
ghost use Rattle.go_parse_core.specs.LeftOut.{HasOneWholeTree, MarkedIsWhole, WholeIsMarked};
ghost use Rattle.go_parse_core.specs.Names.{HasNamesSpelled, HasOccurrencesSpelled};
ghost use Rattle.go_parse_core.specs.Refusing.{HasOneRule};

/// A law, with nothing to run: a text has at most one tree.
pub fn one_tree()
    ensures { HasOneTree }
{}

/// A law, with nothing to run: the reading of a text's tokens stops by one rule at most, so that a text without a low tree has P1 or P2, and
/// not both.
pub fn one_rule()
    ensures { HasOneRule }
{}

/// A law, with nothing to run: each name and each string literal among the tokens of a text in UTF-8 is spelled as the text
/// has it at its place, quotes included, and each integer literal has the value of the digits at its place, at most 2^63 - 1, so that
/// a tree can write it.
pub fn names_spelled()
    ensures { HasNamesSpelled }
{}

/// A law, with nothing to run: each identifier and each import among the occurrences of the tree of a text is spelled as the
/// text has it at its place, an import with its quotes.
pub fn occurrences_spelled()
    ensures { HasOccurrencesSpelled }
{}

/// A law, with nothing to run: a tree of a text can be filled to a whole tree of the text, with a semicolon
/// wherever it has none, and no higher.
pub fn marked_is_whole()
    ensures { MarkedIsWhole }
{}

/// A law, with nothing to run: a whole tree of a text, without the semicolons that the text leaves out, is a
/// tree of the text.
pub fn whole_is_marked()
    ensures { WholeIsMarked }
{}

/// A law, with nothing to run: a text has at most one whole tree, apart from the places of the semicolons
/// that it leaves out.
pub fn one_whole_tree()
    ensures { HasOneWholeTree }
{}

/// A law, with nothing to run: `type A = B` is an alias (the Go specification, "Alias declarations"), alone and in
/// parentheses, and behind its `=` stands the name of a type, without parentheses: no file has a star, an opening
/// parenthesis, `struct`, `interface` or a semicolon there, and its text has P1, whatever stands behind.
pub fn aliases_are_of_names()
    ensures { AliasesAreOfNames }
{}
