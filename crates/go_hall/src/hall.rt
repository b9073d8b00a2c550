//! The hall.
ghost use Rattle.std.specs.Prelude.{◌≡◌, ◌⊎◌, ◌+◌, ◌<◌, [], IfErr, IfOk, OnErr, OnOk, length};
ghost use Rattle.std.specs.List.{sum_by};
ghost use Rattle.go_hall_core.specs.sched_core.Service.{Service, empty};
ghost use Rattle.go_hall_core.specs.submit_core.Trees.{tree_with};
ghost use Rattle.go_hall_core.specs.Counts.{opens_in, submits_in};
ghost use Rattle.go_hall_core.specs.sched_core.Steps.{Replay};
ghost use Rattle.go_hall.specs.Refusals.{IsOpenRefusal, IsSubmitRefusal};

use crate::session::Session;
use go_graph_core::Workspace;
use go_hall_core::board_core::BoardReader;
use go_hall_core::sched_core::{Event, SessionId, TicketState};
use go_hall_core::submit_core::{ModuleTree, Ticket};
use go_hall_core::{Counted, Named, Stamps, Submits};
use go_path_core::Module;
use go_path_core::text_core::Rule;
use std::alloc::Global;
use std::sync::atomic::{AtomicU64, Ordering};
use std::sync::ledger::Blank;
use std::sync::{Condvar, Mutex, MutexGuard, Wait};

/// The core, its history and the board, which sessions and workers share.
pub struct Hall<L: Named> {
    pub(crate) alloc: Global,
    pub(crate) state: Mutex<Counted<L>>,
    // Workers wait for something to do,
    pub(crate) work: Condvar,
    // and builds for their batch.
    pub(crate) built: Condvar,
    // Takes in a row that were refused for want of memory. Nothing but when a build gives up rests on it.
    refused: AtomicU64,
    // Sessions that wait for the lock. A worker that goes through packages which stay lets it go while there are any; nothing else rests on it.
    waiting: AtomicU64,
}

// After so many Takes that were refused in a row builds give up. A worker tries once a millisecond.
const MOST_REFUSED: u64 = 10_000;

impl<L: Named> Drop for Hall<L> {
    fn drop(self) {
        let Hall {
            alloc: _,
            state: _,
            work: _,
            built: _,
            refused: _,
            waiting: _,
        } = self;
    }
}

// Whether a submission may still be published.
fn is_pending<L: Named>(state: &Counted<L>, ticket: Ticket) -> bool {
    match state.ticket(ticket) {
        Some(TicketState::Waiting) => !state.is_stopped(),
        Some(TicketState::Running) => !state.is_stopped(),
        _ => false,
    }
}

impl<L: Named> Hall<L> {
    /// A hall to which nothing happened, with a reader of the board for each session that may be open.
    ///
    /// # Errors
    ///
    /// `Rule::M0` where memory is wanting.
    pub fn new(alloc: Global, blank: Blank, stamps: Stamps) -> Result<Hall<L>, Rule>
        requires ledger { (blank.name ≡ L.name) × (blank.parts ≡ L.parts) × (L.all ≡ L.parts) × (1048576 < L.all) }
        requires stamps { stamps.seen.book ≡ L.book }
    {
        let state = Counted::new(alloc, blank, stamps)?;
        Ok(Hall {
            alloc,
            state: Mutex::new(state),
            work: Condvar::new(),
            built: Condvar::new(),
            refused: AtomicU64::new(0),
            waiting: AtomicU64::new(0),
        })
    }

    /// Opens a session, whose draft is empty.
    ///
    /// # Errors
    ///
    /// What `HallState::open` answers. Meanwhile others may open and close, so the rule is one that some state of the hall gives: `Rule::O1` where a session
    /// holds the module, `Rule::O3` where it overlaps another one, `Rule::O4` where no place is left, `Rule::H1` where the history is full, `Rule::H2` where
    /// the hall is stopped, and `Rule::M0` where memory is wanting.
    #[tactic(auto, using(crate::proofs::Refused::open_refused, crate::proofs::Refused::empty_refused))]
    pub fn open<R: Wait>(&self, rt: &R, own: Module) -> Result<Session<'_, L>, Rule>
        ensures ok { IfOk result (λ s. (s.draft ≡ tree_with own []) × (s.submits ≡ 0)) }
        ensures err { IfErr result (λ rule. IsOpenRefusal own rule) }
    {
        let Ok(again) = own.share() else {
            return Err(Rule::M0);
        };
        let draft = ModuleTree::make(self.alloc, again, Workspace::empty(self.alloc))?;
        let opened = self.enter(rt).open(own);
        self.work.notify_all();
        let (id, reader, mine) = opened?;
        Ok(Session::new(self, self.alloc, id, draft, reader, mine))
    }

    /// From now on nothing is opened or submitted, workers end, and no build waits for its batch.
    pub fn stop<R: Wait>(&self, rt: &R) {
        self.state.lock(rt).stop();
        self.work.notify_all();
        self.built.notify_all();
    }

    /// The history: the events that the core accepted, in order. Handed what each session submitted, the counts add up to its submits.
    pub fn end(self, all: Vec<Submits<L>>) -> Vec<Event>
        requires { L.all ≡ L.parts }
        ensures replays { (s : Service) × Replay empty result.items s }
        ensures counts { length all.items ≡ opens_in result.items → sum_by (λ s. s.count) all.items ≡ submits_in result.items }
    {
        let Hall {
            alloc: _,
            state,
            work: _,
            built: _,
            refused: _,
            waiting: _,
        } = self;
        state.into_inner().end(all)
    }

    // Submits a tree, and wakes the workers.
    #[tactic(auto, using(crate::proofs::Refused::submit_refused))]
    pub(crate) fn submit<R: Wait>(
        &self,
        rt: &R,
        mine: &mut Submits<L>,
        id: SessionId,
        tree: ModuleTree,
    ) -> Result<Ticket, Rule>
        ensures counted { OnOk result (mine.new.count ≡ mine.old.count + 1) }
        ensures refused { OnErr result (mine.new.count ≡ mine.old.count) }
        ensures err { IfErr result (λ rule. IsSubmitRefusal id tree rule) }
    {
        let answer = self.enter(rt).submit(mine, id, tree);
        self.work.notify_all();
        answer
    }

    // Closes a session, which hands its reader back.
    pub(crate) fn close<R: Wait>(&self, rt: &R, id: SessionId, reader: Option<BoardReader>) {
        self.enter(rt).close(id, reader);
        self.work.notify_all();
    }

    /// How many events the history has. Once it has 1,048,576, nothing is opened or submitted any more.
    pub fn events<R: Wait>(&self, rt: &R) -> usize {
        self.state.lock(rt).events()
    }

    // The lock, for a session that opens, submits or closes, and then wakes the workers. One that let it go looks again then, or a millisecond later.
    fn enter<R: Wait>(&self, rt: &R) -> MutexGuard<'_, Counted<L>> {
        let _before = self.waiting.fetch_add(1, Ordering::Relaxed);
        let state = self.state.lock(rt);
        let _before = self.waiting.fetch_sub(1, Ordering::Relaxed);
        state
    }

    // Whether a session waits for the lock.
    pub(crate) fn is_wanted(&self) -> bool {
        self.waiting.load(Ordering::Relaxed) > 0
    }

    // Counts a Take that was refused for want of memory. Builds are waked where there were so many in a row that they give up.
    pub(crate) fn note_refused(&self) {
        if self.refused.fetch_add(1, Ordering::Relaxed) >= MOST_REFUSED {
            self.built.notify_all();
        }
    }

    // Notes a Take that was not refused.
    pub(crate) fn note_taken(&self) {
        self.refused.store(0, Ordering::Relaxed);
    }

    // Whether there is so little memory that nothing was taken for a while.
    fn is_starved(&self) -> bool {
        self.refused.load(Ordering::Relaxed) >= MOST_REFUSED
    }

    // Waits until a submission is published or given back, memory is wanting for a while, or the hall is stopped. The number of its batch.
    pub(crate) fn published<R: Wait>(&self, rt: &R, ticket: Ticket) -> Result<u64, Rule>
        ensures { IfErr result (λ rule. (rule ≡ Rule.M0) ⊎ (rule ≡ Rule.H2)) }
    {
        let state = self.built.wait_while(rt, self.state.lock(rt), |state| {
            is_pending(state, ticket) && !self.is_starved()
        });
        match state.ticket(ticket) {
            Some(TicketState::Published(number)) => Ok(number),
            Some(TicketState::GivenBack) => Err(Rule::M0),
            _ => {
                if state.is_stopped() {
                    Err(Rule::H2)
                } else {
                    Err(Rule::M0)
                }
            }
        }
    }
}
