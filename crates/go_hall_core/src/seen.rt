//! What a worker sees of the packages of a batch.
ghost use Rattle.std.specs.Prelude.{◌≡◌, IfOk, IsTrue};
ghost use Rattle.go_sched_core.specs.Sights.{AreOfActions, IsListed, Serves};
ghost use Rattle.go_hall_core.specs.mirrors.Known.{gathered_with};

use crate::counted::{Errand, Named};
use crate::known::Known;
use crate::stamping::Seal;
use go_sched_core::Action;
use go_sched_core::batch_core::{ReadPart, Rebuilt, Sight, earlier_of};
use std::alloc::{AllocError, Global};
use std::marker::Model;
use std::thread::Threads;

// What is seen of packages by actions of a generation, which a seal shows. Contracts see all three.
struct Gathered<L: Named> {
    sight: Sight,
    generation: u64,
    seal: Seal<L, Action>,
}

impl<L: Named> Drop for Gathered<L> {
    fn drop(self) {
        let Gathered {
            sight: _,
            generation: _,
            seal: _,
        } = self;
    }
}

impl<L: Named> Model for Gathered<L> {
    ghost use Rattle.go_sched_core.specs.Sights.{AreOfActions};
    ghost use Rattle.go_hall_core.specs.Coding.{coded_gathered};
    ghost use Rattle.go_hall_core.specs.mirrors.Known.{GatheredModel, gathered_with};

    ghost Value = { GatheredModel };

    ghost coded = { coded_gathered };

    ghost view = { λ s. gathered_with s.sight s.generation s.seal };

    ghost invariant = { λ s. AreOfActions s.seal s.generation s.sight };
}

impl<L: Named> Gathered<L> {
    // What is seen after an action of a generation.
    fn new(sight: Sight, generation: u64, seal: Seal<L, Action>) -> Gathered<L>
        requires { AreOfActions seal generation sight }
        ensures { result ≡ gathered_with sight generation seal }
    {
        Gathered {
            sight,
            generation,
            seal,
        }
    }

    // Whether it serves an action of a generation: it is of this generation, and of nothing that was stamped later.
    fn serves(&self, generation: u64, known: &Known<L>) -> bool
        requires { generation ≡ known.now.action.generation }
        ensures { IsTrue result → Serves known.now.log known.now.action self.now.sight }
    {
        known.covers(&self.seal) && self.generation == generation
    }

    fn into_sight(self) -> Sight
        ensures { result ≡ self.sight }
    {
        let Gathered {
            sight,
            generation: _,
            seal: _,
        } = self;
        sight
    }
}

/// What a worker sees of packages, kept from one action of a batch to the next: so what a package tells is added once, and not once for each package that
/// reaches it. With the first action of another batch it begins anew.
pub struct Seen<L: Named> {
    kept: Option<Gathered<L>>,
}

impl<L: Named> Drop for Seen<L> {
    fn drop(self) {
        let Seen { kept: _ } = self;
    }
}

// What is seen for an action of a generation: what was kept, where that serves it.
fn sight_for<L: Named>(
    alloc: Global,
    kept: Option<Gathered<L>>,
    generation: u64,
    known: &Known<L>,
) -> Result<Sight, AllocError>
    requires { generation ≡ known.now.action.generation }
    ensures { IfOk result (Serves known.now.log known.now.action) }
{
    if let Some(kept) = kept {
        if kept.serves(generation, known) {
            return Ok(kept.into_sight());
        }
    }
    let sight = Sight::none(alloc)?;
    Ok(sight)
}

// What is kept after an action of a generation: nothing where it has no stamp.
fn kept_after<L: Named>(generation: u64, known: &Known<L>, sight: Sight) -> Option<Gathered<L>>
    requires { IsListed known.now.log known.now.action → AreOfActions known.now.log generation sight }
{
    match known.seal_with_it() {
        Some(seal) => Some(Gathered::new(sight, generation, seal)),
        None => None,
    }
}

impl<L: Named> Seen<L> {
    /// Nothing is seen.
    pub fn new() -> Seen<L> {
        Seen { kept: None }
    }

    /// Lets go what is seen, as where a batch is over.
    pub fn forget(&mut self) {
        self.kept = None;
    }

    /// A part of an errand's input: an earlier one, shared, where that was made of the same input, else one that is compiled over what is seen, its files in
    /// pieces of source at once. Where memory is wanting nothing is seen any more.
    ///
    /// # Errors
    ///
    /// `AllocError` where memory is wanting, or a thread.
    pub fn rebuild<R: Threads + Sync>(
        &mut self,
        rt: &R,
        alloc: Global,
        errand: &Errand<L>,
        earlier: Option<&ReadPart>,
    ) -> Result<ReadPart, AllocError>
        ensures { IfOk result (λ p. p.input ≡ errand.now.action.input) }
    {
        let action = &errand.action;
        if let Some(part) = earlier_of(&action.input, earlier)? {
            return Ok(part);
        }
        let generation = action.generation;
        let sight = sight_for(alloc, self.kept.take(), generation, &errand.known)?;
        let rebuilt = Rebuilt::over(rt, alloc, &action.input, sight)?;
        let Rebuilt { part, sight } = rebuilt;
        self.kept = kept_after(generation, &errand.known, sight);
        Ok(part)
    }
}
