//! What is done with the action of a package.
ghost use Rattle.std.specs.Prelude.{◌≡◌};
ghost use Rattle.go_batch_core.specs.Batches.{is_left};
ghost use Rattle.go_batch_core.specs.mirrors.Keeping.{mark_of};

use go_digraph_core::ready_queue::Mark;
use go_package_core::package_part::PartInput;

/// What is done with the action of a package.
pub enum Slot {
    /// The package is not assembled.
    NoAction,
    /// It is not taken yet.
    Untaken,
    /// It was taken under this number, with this input.
    Taken(u64, PartInput),
    /// Its part is there.
    Finished,
}

impl Drop for Slot {
    fn drop(self) {
        match self {
            Slot::NoAction => {}
            Slot::Untaken => {}
            Slot::Taken(_, _) => {}
            Slot::Finished => {}
        }
    }
}

impl Slot {
    /// Whether the action is not finished.
    pub fn is_left(&self) -> bool
        ensures { result ≡ is_left self.now }
    {
        matches!(self, Slot::Untaken | Slot::Taken(_, _))
    }

    pub(crate) fn mark(&self) -> Mark
        ensures { result ≡ mark_of self.now }
    {
        match self {
            Slot::NoAction => Mark::Absent,
            Slot::Untaken => Mark::Waiting,
            Slot::Taken(_, _) => Mark::Taken,
            Slot::Finished => Mark::Finished,
        }
    }
}
