//! A law of edits, with nothing to run.
ghost use Rattle.go_session_core.specs.overlay.Laws.{EditsChangeOneFile};

/// An edit sets that file of that package alone, or takes it away: every other file of every package has the text that it had, and no file is new.
pub fn edits_change_one_file()
    ensures { EditsChangeOneFile }
{}
