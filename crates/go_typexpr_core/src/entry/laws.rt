//! Laws of the types that a package declares, and of what packages show.
ghost use Rattle.go_typexpr_core.specs.entry.Laws.{EntriesAreLocal, KeysDiffer, MethodsAreOfTheType};
ghost use Rattle.go_typexpr_core.specs.entry.Sample.{EntrySampleIsRight};
ghost use Rattle.go_typexpr_core.specs.entry.Scoped.{NamesAreInScope};
ghost use Rattle.go_typexpr_core.specs.entry.Showing.{KeepsOthers, ShowsItsBlock};

/// A law, with nothing to run: the name of a type means what it denotes by the blocks that are open at the top of its file, the declaration
/// in the innermost block that has it; and behind a dot what the package shows which the name before the dot denotes.
pub fn names_are_in_scope()
    ensures { NamesAreInScope }
{}

/// A law, with nothing to run: the keys of a package's entries are those of its type declarations, in order of file and number, and no two
/// of them are the same.
pub fn entry_keys_differ()
    ensures { KeysDiffer }
{}

/// A law, with nothing to run: a method stands in an entry exactly where it is declared in a file of the package with a receiver whose base
/// means the entry's type there; the methods of an entry stand in order of file and number, each once.
pub fn methods_are_of_the_type()
    ensures { MethodsAreOfTheType }
{}

/// A law, with nothing to run: the entries of a package depend on nothing of its blocks and of other packages but on what those names mean
/// that its types, the receivers of its methods and their signatures write.
pub fn entries_are_local()
    ensures { EntriesAreLocal }
{}

/// A law, with nothing to run: once what a package shows is added, each exported name of its package block is seen behind the package's
/// name and a dot, with its declaration, and no other name; and what other packages show is as it was.
pub fn packages_show_their_blocks()
    ensures own { ShowsItsBlock }
    ensures others { KeepsOthers }
{}

/// A law, with nothing to run: the types of a package of two files that is worked out by hand. Each method stands with its type whichever of
/// the files it is in, and one whose receiver is a type of another package, spelled alike and with the same numbers, with none.
pub fn worked_entries()
    ensures { EntrySampleIsRight }
{}
