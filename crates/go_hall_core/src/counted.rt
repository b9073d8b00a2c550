//! The lock's value, with the ledger of the submits, and with stamps for the actions that are handed out.
ghost use Rattle.std.specs.Prelude.{◌≡◌, ◌⊎◌, ℕ, ◌<◌, ◌+◌, [], false, true, IfErr, IfOk, IsTrue, MatchOption, MatchResult, OnErr, OnOk, length};
ghost use Rattle.std.specs.Option.{ForSome};
ghost use Rattle.go_package_core.specs.package_part.Parts.{PartModel};
ghost use Rattle.std.specs.List.{sum_by};
ghost use Rattle.go_sched_core.specs.Outs.{KnowsInput};
ghost use Rattle.go_sched_core.specs.Service.{Service, empty, open_rule, submit_rule, ticket_of};
ghost use Rattle.go_sched_core.specs.Steps.{Replay, accepts};
ghost use Rattle.go_sched_core.specs.declared.event.Action.{Action};
ghost use Rattle.go_hall_core.specs.Counts.{opens_in, submits_in};
ghost use Rattle.go_hall_core.specs.Kept.{IsRefusal, Recorded};

use crate::known::Known;
use crate::stamping::{NamesBook, Stamp, StampBook, Stamper};
use crate::state::HallState;
use go_board_core::BoardReader;
use go_board_core::submit_core::{ModuleTree, Ticket};
use go_path_core::Module;
use go_path_core::text_core::Rule;
use go_sched_core::batch_core::ReadPart;
use go_sched_core::{Action, Event, Reply, SessionId, TicketState};
use std::alloc::Global;
use std::marker::{Brand, Model};
use std::sync::Wait;
use std::sync::ledger::{Blank, Book, Ledger, Share};

/// The ledger of a hall's submits, with all its parts, and the book of its stamps.
pub trait Named: Ledger + NamesBook {
    ghost all: { ℕ };
}

impl Named for Brand {
    ghost all = { 0 };
}

/// A book for the stamps of a hall's actions.
pub type Stamps = StampBook<Action>;

/// How many submits a session made.
#[derive(Drop)]
pub struct Submits<L: Named> {
    pub count: u64,
    share: Share<L>,
    ghost one_part: { share.parts ≡ 1 },
    ghost counted: { share.amount ≡ count },
}

/// An action that was handed out, with the hall's stamp where there is one, and with what it knows of those that were stamped before it.
pub struct Errand<L: Named> {
    pub action: Action,
    stamp: Option<Stamp<L, Action>>,
    pub(crate) known: Known<L>,
    ghost stamped: { ForSome stamp (λ a. a ≡ action) },
    ghost of_action: { known.action ≡ action },
}

impl<L: Named> Drop for Errand<L> {
    fn drop(self) {
        let Errand {
            action: _,
            stamp: _,
            known: _,
        } = self;
    }
}

/// The lock's value, with the book of the submits and the parts that no session has, and with the stamper of the actions that are handed out. Contracts see what
/// `HallState` keeps.
pub struct Counted<L: Named> {
    state: HallState,
    book: Book<L>,
    rest: Share<L>,
    stamper: Stamper<L, Action>,
}

impl<L: Named> Drop for Counted<L> {
    fn drop(self) {
        let Counted {
            state: _,
            book: _,
            rest: _,
            stamper: _,
        } = self;
    }
}

impl<L: Named> Model for Counted<L> {
    ghost use Rattle.std.specs.Prelude.{◌≡◌, ◌+◌, ◌<◌};
    ghost use Rattle.go_hall_core.specs.Counts.{opens_in, submits_in};
    ghost use Rattle.go_hall_core.specs.Coding.{coded_kept};
    ghost use Rattle.go_hall_core.specs.Kept.{Kept};
    ghost use Rattle.go_hall_core.specs.mirrors.Stamped.{AreStamped};

    ghost Value = { Kept };

    ghost coded = { coded_kept };

    ghost view = { λ s. s.state };

    ghost invariant = { λ s. (s.book.total ≡ submits_in s.state.history) × (s.rest.amount ≡ 0) × (s.rest.parts + opens_in s.state.history ≡ L.all) × (1048576 < L.all) × AreStamped s.stamper s.state.service };
}

impl<L: Named> Counted<L> {
    /// # Errors
    ///
    /// `Rule::M0` where memory is wanting.
    pub fn new(alloc: Global, blank: Blank, stamps: Stamps) -> Result<Counted<L>, Rule>
        requires ledger { (blank.name ≡ L.name) × (blank.parts ≡ L.parts) × (L.all ≡ L.parts) × (1048576 < L.all) }
        requires stamps { stamps.seen.book ≡ L.book }
        ensures ok { IfOk result (λ s. s ≡ record { service = empty; history = []; stopped = false }) }
    {
        let state = HallState::new(alloc)?;
        let (book, rest) = blank.open::<L>();
        let stamper = stamps.named::<L>();
        Ok(Counted {
            state,
            book,
            rest,
            stamper,
        })
    }

    /// As `HallState::open`, with a share of the submits.
    ///
    /// # Errors
    ///
    /// As `HallState::open`.
    pub fn open(&mut self, own: Module) -> Result<(SessionId, BoardReader, Submits<L>), Rule>
        ensures replays { Replay empty self.old.history self.old.service }
        ensures ok { IfOk result (λ p. (self.old.stopped ≡ false) × Recorded self.old (Event.Open own) (Reply.Opened p.0) self.new × (p.2.count ≡ 0)) }
        ensures err { IfErr result (λ rule. (self.new ≡ self.old) × IsRefusal self.old.stopped (open_rule self.old.service own) rule) }
    {
        let (id, reader) = self.state.open(own)?;
        let share = self.rest.split_off(1, 0);
        Ok((id, reader, Submits { count: 0, share }))
    }

    // The same over a share alone.
    #[tactic(auto, using(crate::proofs::Pushes::opens_push, crate::proofs::Pushes::submits_push))]
    fn submit_in(
        &mut self,
        share: &mut Share<L>,
        id: SessionId,
        tree: ModuleTree,
    ) -> Result<Ticket, Rule>
        requires { 0 < share.old.parts }
        ensures replays { Replay empty self.old.history self.old.service }
        ensures parts { share.new.parts ≡ share.old.parts }
        ensures counted { OnOk result (share.new.amount ≡ share.old.amount + 1) }
        ensures refused { OnErr result (share.new.amount ≡ share.old.amount) }
        ensures ok { IfOk result (λ ticket. (self.old.stopped ≡ false) × Recorded self.old (Event.Submit id tree) (Reply.Submitted ticket) self.new) }
        ensures err { IfErr result (λ rule. (self.new ≡ self.old) × IsRefusal self.old.stopped (submit_rule self.old.service id tree) rule) }
    {
        let ticket = self.state.submit(id, tree)?;
        self.book.add(share, 1);
        Ok(ticket)
    }

    /// As `HallState::submit`. It counts among the session's submits.
    ///
    /// # Errors
    ///
    /// As `HallState::submit`.
    pub fn submit(
        &mut self,
        mine: &mut Submits<L>,
        id: SessionId,
        tree: ModuleTree,
    ) -> Result<Ticket, Rule>
        ensures replays { IfErr result (λ rule. (rule ≡ Rule.M0) ⊎ Replay empty self.old.history self.old.service) }
        ensures counted { OnOk result (mine.new.count ≡ mine.old.count + 1) }
        ensures refused { OnErr result (mine.new.count ≡ mine.old.count) }
        ensures ok { IfOk result (λ ticket. (self.old.stopped ≡ false) × Recorded self.old (Event.Submit id tree) (Reply.Submitted ticket) self.new) }
        ensures err { IfErr result (λ rule. (self.new ≡ self.old) × IsRefusal self.old.stopped (submit_rule self.old.service id tree) rule) }
    {
        let Submits { count, share } = mine;
        if *count == u64::MAX {
            return Err(Rule::M0);
        }
        let ticket = self.submit_in(share, id, tree)?;
        *count += 1;
        Ok(ticket)
    }

    /// As `HallState::close`.
    pub fn close(&mut self, id: SessionId, reader: Option<BoardReader>) -> Reply
        ensures { Recorded self.old (Event.Close id) result self.new }
    {
        self.state.close(id, reader)
    }

    /// As `HallState::take`. An action that is handed out is stamped.
    ///
    /// # Errors
    ///
    /// The reply, where no action is handed out.
    pub fn take<R: Wait>(&mut self, rt: &R) -> Result<Errand<L>, Reply>
        ensures recorded { MatchResult result (λ e. Recorded self.old Event.Take (Reply.Act e.action) self.new) (λ reply. Recorded self.old Event.Take reply self.new) }
        ensures none { IfErr result (λ reply. (action : Action) → reply ≡ Reply.Act action → ⊥) }
    {
        match self.state.take(rt) {
            Reply::Act(action) => {
                let stamp = self.stamper.stamp(&action);
                self.state.is_told_once();
                let seal = self.stamper.seal();
                let known = Known::new(&action, stamp.is_some(), seal);
                Ok(Errand {
                    action,
                    stamp,
                    known,
                })
            }
            reply => Err(reply),
        }
    }

    // Whether this hall stamped the action of an errand.
    fn has_stamped(&self, errand: &Errand<L>) -> bool
        ensures { IsTrue result → KnowsInput self.now.service errand.now.action.number errand.now.action.input }
    {
        match &errand.stamp {
            Some(stamp) => self.stamper.has_given(stamp),
            None => false,
        }
    }

    /// As `HallState::finish`, by a part of the input of an errand's action. Where the hall stamped the action, no input is looked at.
    pub fn finish<R: Wait>(&mut self, rt: &R, errand: &Errand<L>, part: ReadPart) -> Reply
        requires { part.input ≡ errand.now.action.input }
        ensures { Recorded self.old (Event.Finish errand.now.action.number part) result self.new }
    {
        let number = errand.action.number;
        if self.has_stamped(errand) {
            self.state.finish_known(rt, number, part)
        } else {
            self.state.finish(rt, number, part)
        }
    }

    /// As `HallState::finish_kept`.
    pub fn finish_kept<R: Wait>(&mut self, rt: &R, place: usize, number: u64) -> Option<Reply>
        ensures { MatchOption result (self.new ≡ self.old) (λ reply. (part : PartModel) × (accepts reply ≡ true) × Recorded self.old (Event.Finish number part) reply self.new) }
    {
        self.state.finish_kept(rt, place, number)
    }

    /// As `HallState::give_back`.
    pub fn give_back(&mut self, generation: u64) -> Reply
        ensures { Recorded self.old (Event.GiveBack generation) result self.new }
    {
        self.state.give_back(generation)
    }

    pub fn stop(&mut self)
        ensures { self.new ≡ record self.old { stopped = true } }
    {
        self.state.stop();
    }

    pub fn is_stopped(&self) -> bool
        ensures { result ≡ self.now.stopped }
    {
        self.state.is_stopped()
    }

    /// How many events were accepted.
    pub fn events(&self) -> usize
        ensures { result ≡ length self.now.history }
    {
        self.state.events()
    }

    /// As `HallState::ticket`.
    pub fn ticket(&self, ticket: Ticket) -> Option<TicketState>
        ensures { result ≡ ticket_of self.now.service ticket.0 }
    {
        self.state.ticket(ticket)
    }

    /// The history. Handed the submits of each session, their counts add up to its submits.
    pub fn end(self, all: Vec<Submits<L>>) -> Vec<Event>
        requires { L.all ≡ L.parts }
        ensures replays { (s : Service) × Replay empty result.items s }
        ensures counts { length all.items ≡ opens_in result.items → sum_by (λ s. s.count) all.items ≡ submits_in result.items }
    {
        let Counted {
            state,
            mut book,
            mut rest,
            stamper: _,
        } = self;
        for one in all {
            let Submits { count: _, share } = one;
            rest.merge(share);
        }
        book.audit(&mut rest);
        state.end()
    }
}
