//! Laws of what is asked of a type, with nothing to run.
ghost use Rattle.go_type_doc_core.specs.Laws.{FilesHaveLooks, MembersAreLocal};

/// A law, with nothing to run: the look-ups by which a name is judged where a type is written, in a file that a package could have behind its own, are
/// look-ups of that package over the types in question: so what `doc_of_type` answers is what selectors behind a variable of the type have in that file.
///
/// The Go specification, "Selectors", "Variable declarations".
pub fn files_have_looks()
    ensures { FilesHaveLooks }
{}

/// A law, with nothing to run: what selectors behind a variable of a type have is the same over any other types that have the same of all that the type
/// reaches. So what `doc_of_type` answers by the types that the declaring package sees holds in each file of the package that asks, by the types that are
/// seen there.
///
/// The Go specification, "Selectors".
pub fn members_are_local()
    ensures { MembersAreLocal }
{}
