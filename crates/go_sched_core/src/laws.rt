//! Laws of runs, with nothing to run.
ghost use Rattle.go_sched_core.specs.Laws.{ReplaysGoOn, RunsGoOn};

/// A run goes on by one step.
pub fn runs_go_on()
    ensures { RunsGoOn }
{}

/// A replay goes on by one accepted step.
pub fn replays_go_on()
    ensures { ReplaysGoOn }
{}
