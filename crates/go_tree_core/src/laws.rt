//! Laws of the occurrences of a file.
//!
//! The definition of the occurrences and the walk that lists them could both forget a part of a file. What these laws speak of
//! instead is defined apart from both: the names that a file declares, its blank targets, its calls, its imports, and what it
//! writes.
ghost use Rattle.go_tree_core.specs.Laws.{NamesAreUsedOrDeclared, CallsAreOccurrences, ImportsAreOccurrences, OccurrencesAreWritten};
ghost use Rattle.go_tree_core.specs.Renaming.{RespelledFilesWriteTheSame};

/// A law, with nothing to run: the names that a file writes are, each once and in order, the identifiers among its occurrences,
/// the names that it declares, and its blank targets.
pub fn names_are_used_or_declared()
    ensures { NamesAreUsedOrDeclared }
{}

/// A law, with nothing to run: the calls among the occurrences of a file are the calls of the file, each at its opening
/// parenthesis.
pub fn calls_are_occurrences()
    ensures { CallsAreOccurrences }
{}

/// A law, with nothing to run: the imports among the occurrences of a file are the strings of its imports, as they are spelled.
pub fn imports_are_occurrences()
    ensures { ImportsAreOccurrences }
{}

/// A law, with nothing to run: the occurrences of a file are terminals that it writes, each another one and in order: an
/// identifier a name that is spelled so, an import a string literal that is spelled so, a call an opening parenthesis.
pub fn occurrences_are_written()
    ensures { OccurrencesAreWritten }
{}

/// A law, with nothing to run: a file with another spelling of the identifier at an offset writes the tokens that it wrote, in their
/// places, but that the name which begins there is spelled so.
pub fn respelled_files_write_the_same()
    ensures { RespelledFilesWriteTheSame }
{}
