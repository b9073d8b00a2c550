//! Laws of what is kept of a checked package.
ghost use Rattle.go_report_core.specs.answer.Laws.{HiddenDoNotCount, NamesShowTheirFaces, OuterFaultsAreThese, ShownAlike, ShownAreExported};
ghost use Rattle.go_report_core.specs.answer.Sample.{AnswerSampleIsRight};

/// A law, with nothing to run: a package shows the faces of exactly those of its declarations of which something is known and which its
/// package block has under an exported name, in order of file and number.
///
/// The Go specification, "Exported identifiers".
pub fn shown_faces_are_exported()
    ensures { ShownAreExported }
{}

/// A law, with nothing to run: two packages of which what is exported is declared and known alike show the same faces, whatever else they
/// declare and whatever is known of that; and the same in all, where the names of their blocks are the same.
pub fn hidden_declarations_do_not_count()
    ensures faces { HiddenDoNotCount }
    ensures whole { ShownAlike }
{}

/// A law, with nothing to run: behind the name of a package and a dot each exported name of its package block has its declaration, with what
/// is known of it.
///
/// The Go specification, "Qualified identifiers" and "Exported identifiers".
pub fn exported_names_show_their_faces()
    ensures { NamesShowTheirFaces }
{}

/// A law, with nothing to run: the faults of a file that are asked of its package as a whole are exactly those of blocks and of types in
/// this file, and Y7 at the identifier of each of its constants that is defined through itself.
pub fn outer_faults_are_these()
    ensures { OuterFaultsAreThese }
{}

/// A law, with nothing to run: what a package of five declarations shows, worked out by hand, and the faults of its second file.
pub fn worked_package()
    ensures { AnswerSampleIsRight }
{}
