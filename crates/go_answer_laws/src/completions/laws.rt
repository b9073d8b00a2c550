//! Laws of a name that is put in place of an identifier.
ghost use Rattle.go_answer_laws.specs.completions.Laws.{BlankNeverFits, BlocksStay, IdentifiersCanBeRespelled, NamesFit};

use go_query_core::complete_core::{
    checked_packages_have_contexts, checked_packages_keep_contexts,
};
use go_query_core::package_core::part_has_occurrences;

/// A law, with nothing to run: each identifier of a file that is used can be spelled as any other name. It stands in one place of the file's
/// declarations, in an initialiser, in a type outside functions, in a header or in a body, and all else of the file is as it was.
pub fn identifiers_can_be_respelled()
    ensures { IdentifiersCanBeRespelled }
{}

/// A law, with nothing to run: a name that is put in place of an identifier that is used leaves the blocks of the package as they were, the
/// package block, the blocks of its files and their faults.
///
/// The Go specification, "Declarations and scope".
pub fn blocks_stay()
    ensures { BlocksStay }
{}

/// A law, with nothing to run: the names that have a declaration in place of an identifier, by its context in a part, are exactly those with which
/// the same package, with the name put in its place, answers a declaration for its occurrence; both ways, and for each content that this
/// package has.
///
/// The Go specification, "Declarations and scope", "Selectors", "Qualified identifiers".
pub fn names_fit()
    ensures { NamesFit }
{
    identifiers_can_be_respelled();
    blocks_stay();
    checked_packages_have_contexts();
    checked_packages_keep_contexts();
    part_has_occurrences();
}

/// A law, with nothing to run: `_` is none of the names that have a declaration in place of an identifier. Left of `=` it would be no
/// identifier that is used.
///
/// The Go specification, "Blank identifier".
pub fn blank_never_fits()
    ensures { BlankNeverFits }
{}
