//! The nodes of a graph in turn.
ghost use Rattle.std.specs.Arc.{arc_value};
ghost use Rattle.std.specs.Prelude.{◌≡◌, ◌<◌, ℕ, All, IfOk, MatchOption, Some, length, map, slice_get, slice_set};
ghost use Rattle.go_digraph_core.specs.declared.ready_queue.mark.Mark.TheVariants.{Taken, Finished};
ghost use Rattle.go_digraph_core.specs.ready_queue.mirrors.Counting.{AreFresh, AreNodes};
ghost use Rattle.go_digraph_core.specs.ready_queue.Turns.{IsReady, turns_with};

use crate::ready_queue::counts::{Counts, counted, queued, release, take_out};
use crate::ready_queue::mark::Mark;
use std::alloc::{AllocError, Global};
use std::marker::Model;
use std::sync::Arc;

/// The nodes of a graph by what is done with them, and which need which. Contracts see these two. Which need which is shared with whoever has it too. The
/// time of a call is that of the needs that it ends.
pub struct Turns {
    marks: Vec<Mark>,
    needing: Arc<Vec<Vec<usize>>>,
    counts: Counts,
}

impl Drop for Turns {
    fn drop(self) {
        let Turns {
            marks: _,
            needing: _,
            counts: _,
        } = self;
    }
}

impl Model for Turns {
    ghost use Rattle.std.specs.Arc.{arc_value};
    ghost use Rattle.std.specs.Prelude.{map, vec_capacity};
    ghost use Rattle.go_digraph_core.specs.ready_queue.Turns.{TurnsModel, turns_with};
    ghost use Rattle.go_digraph_core.specs.ready_queue.mirrors.Counting.{AreKept};

    ghost Value = { TurnsModel };

    ghost view = { λ t. turns_with t.marks.items (map (λ r. r.items) (arc_value t.needing).items) };

    ghost invariant = { λ t. AreKept t.marks.items (map (λ r. r.items) (arc_value t.needing).items) t.counts.missing.items t.counts.queue.items (vec_capacity t.counts.queue) };
}

impl Turns {
    /// The nodes of a graph of which none is taken or finished: `needing` has for each node those that need it. It is shared, not copied.
    ///
    /// # Errors
    ///
    /// `AllocError` where memory is wanting.
    pub fn new(
        alloc: Global,
        marks: Vec<Mark>,
        needing: Arc<Vec<Vec<usize>>>,
    ) -> Result<Turns, AllocError>
        requires fresh { AreFresh marks.items }
        requires many { length (arc_value needing).items ≡ length marks.items }
        requires nodes { AreNodes (length marks.items) (map (λ r. r.items) (arc_value needing).items) }
        ensures { IfOk result (λ t. t ≡ turns_with marks.items (map (λ r. r.items) (arc_value needing).items)) }
    {
        let missing = counted(alloc, marks.len(), needing.as_slice())?;
        let queue = queued(alloc, &marks, &missing)?;
        Ok(Turns {
            marks,
            needing,
            counts: Counts { missing, queue },
        })
    }

    /// A node that is ready, if there is one.
    pub fn next(&self) -> Option<usize>
        ensures { MatchOption result ((node : ℕ) → IsReady self.now node → ⊥) (λ node. IsReady self.now node) }
    {
        self.counts.queue.last().copied()
    }

    /// Takes a node that is ready. It takes no memory.
    pub fn take(&mut self, node: usize)
        requires { IsReady self.old node }
        ensures { self.new ≡ turns_with (slice_set self.old.marks node Taken) self.old.needing }
    {
        self.marks[node] = Mark::Taken;
        take_out(&mut self.counts.queue, node);
    }

    /// A node that was taken is finished. It takes no memory.
    pub fn finish(&mut self, node: usize)
        requires { slice_get self.old.marks node ≡ Some Taken }
        ensures { self.new ≡ turns_with (slice_set self.old.marks node Finished) self.old.needing }
    {
        self.marks[node] = Mark::Finished;
        release(&mut self.counts, &self.needing[node], &self.marks);
    }
}
