//! Laws of doc comments, with nothing to run.
ghost use Rattle.go_doc_core.specs.Laws.{HasDocComment, HasNoOtherDocComment};

/// What stands at a place has a doc comment, which may be empty, and one only: of the comments of a text at most one is above a line.
pub fn one_doc_comment()
    ensures some { HasDocComment }
    ensures only { HasNoOtherDocComment }
{}
