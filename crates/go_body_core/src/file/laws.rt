//! Laws of the check of files, with nothing to run.
ghost use Rattle.go_body_core.specs.file.Laws.{DeclarationsStandAlone, FilesHaveOccurrences, FunctionsArePlaced};

/// What is noted of a file of the grammar stands where its occurrences stand, with their roles and in their order: each occurrence has exactly
/// one outcome, and no other place has one.
pub fn files_have_occurrences()
    ensures { FilesHaveOccurrences }
{}

/// What a declaration has and breaks, and the locals that it declares, depend on the file's other declarations by what is known of them alone:
/// whatever stands before it and behind it, it adds the same.
pub fn declarations_stand_alone()
    ensures { DeclarationsStandAlone }
{}

/// The functions of a file whose tokens follow one another are such functions.
pub fn functions_are_placed()
    ensures { FunctionsArePlaced }
{}
