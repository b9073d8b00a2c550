//! Laws of the history.
ghost use Rattle.go_hall_core.specs.Kept.{CountsHistory};

/// The core counts the events that the history holds.
pub fn replay_counts()
    ensures { CountsHistory }
{}
