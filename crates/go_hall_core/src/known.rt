//! What an action knows of those that were stamped before it.
ghost use Rattle.std.specs.Prelude.{◌≡◌, ℕ, IfSome, IsTrue, Some, slice_get};
ghost use Rattle.go_sched_core.specs.Sights.{IsListed, KnowsOthers};
ghost use Rattle.go_sched_core.specs.declared.event.Action.{Action};
ghost use Rattle.go_hall_core.specs.mirrors.Known.{known_with};

use crate::counted::Named;
use crate::stamping::Seal;
use go_sched_core::Action;
use std::marker::Model;
use std::snapshot::Snapshot;

/// A seal of what was stamped up to an action: of the packages that actions of its generation see, it sees what each of these sees. Contracts see the
/// action and the list.
pub struct Known<L: Named> {
    action: Snapshot<Action>,
    // Whether the action is stamped itself.
    is_listed: bool,
    seal: Seal<L, Action>,
}

impl<L: Named> Drop for Known<L> {
    fn drop(self) {
        let Known {
            action: _,
            is_listed: _,
            seal: _,
        } = self;
    }
}

impl<L: Named> Model for Known<L> {
    ghost use Rattle.go_hall_core.specs.Coding.{coded_known};
    ghost use Rattle.go_hall_core.specs.mirrors.Known.{IsKnown, KnownModel, known_with};

    ghost Value = { KnownModel };

    ghost coded = { coded_known };

    ghost view = { λ k. known_with k.action.value k.seal };

    ghost invariant = { λ k. IsKnown k.is_listed k.seal k.action.value };
}

impl<L: Named> Known<L> {
    /// What an action knows of those that a seal shows.
    pub(crate) fn new(action: &Action, is_listed: bool, seal: Seal<L, Action>) -> Known<L>
        requires listed { IsTrue is_listed → IsListed seal action.now }
        requires known { KnowsOthers seal action.now }
        ensures { result ≡ known_with action.now seal }
    {
        Known {
            action: Snapshot::of(action),
            is_listed,
            seal,
        }
    }

    /// Whether all that another seal shows was stamped up to the action.
    pub(crate) fn covers(&self, seal: &Seal<L, Action>) -> bool
        ensures covered { IsTrue result → (k : ℕ) (x : Action) → slice_get seal.now k ≡ Some x → slice_get self.now.log k ≡ Some x }
        ensures known { KnowsOthers self.now.log self.now.action }
    {
        self.seal.covers(seal)
    }

    /// The seal, where it shows the action itself.
    pub(crate) fn seal_with_it(&self) -> Option<Seal<L, Action>>
        ensures { IfSome result (λ s. (s ≡ self.now.log) × IsListed self.now.log self.now.action) }
    {
        if self.is_listed {
            Some(self.seal.again())
        } else {
            None
        }
    }
}
