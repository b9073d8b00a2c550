//! The lock's value.
ghost use Rattle.std.specs.Prelude.{if◌then◌else◌, ◌+◌, ◌≡◌, ◌⊎◌, ◌<◌, ◌≤◌, ◌++◌, ◌∷◌, [], false, true, IfErr, IfOk, MatchOption, OnOk, length, vec_capacity, vec_len};
ghost use Rattle.go_package_core.specs.package_part.Parts.{PartModel};
ghost use Rattle.go_sched_core.specs.Outs.{KnowsInput};
ghost use Rattle.go_sched_core.specs.Service.{Service, empty, open_rule, submit_rule, ticket_of};
ghost use Rattle.go_sched_core.specs.Sights.{RunsOnce};
ghost use Rattle.go_sched_core.specs.Steps.{Replay, Step, accepts};
ghost use Rattle.go_hall_core.specs.Kept.{IsRefusal, Recorded, late, owed};

use crate::desk::{Desk, seats, show};
use go_board_core::BoardReader;
use go_board_core::submit_core::{ModuleTree, Ticket};
use go_path_core::Module;
use go_path_core::text_core::Rule;
use go_sched_core::batch_core::ReadPart;
use go_sched_core::{Committed, Core, Event, Ready, Reply, SessionId, TicketState};
use std::alloc::Global;
use std::marker::Model;
use std::sync::Wait;

/// The core, the events that it accepted, and the board. Contracts see the core, the history and whether the hall is stopped.
pub struct HallState {
    core: Core,
    history: Vec<Event>,
    // A publication has it while it runs.
    desk: Option<Desk>,
    readers: Vec<BoardReader>,
    stopped: bool,
}

impl Drop for HallState {
    fn drop(self) {
        let HallState {
            core: _,
            history: _,
            desk: _,
            readers: _,
            stopped: _,
        } = self;
    }
}

impl Model for HallState {
    ghost use Rattle.std.specs.Prelude.{◌≡◌, ◌+◌, ◌≤◌, MatchOption, vec_len, vec_capacity};
    ghost use Rattle.go_sched_core.specs.Service.{empty};
    ghost use Rattle.go_sched_core.specs.Steps.{Replay};
    ghost use Rattle.go_hall_core.specs.Coding.{coded_kept};
    ghost use Rattle.go_hall_core.specs.Kept.{Kept, owed};

    ghost Value = { Kept };

    ghost coded = { coded_kept };

    ghost view = { λ s. record { service = s.core; history = s.history.items; stopped = s.stopped } };

    ghost invariant = { λ s. Replay empty s.history.items s.core × MatchOption s.desk ⊥ (λ d. d.writer.desk.shown.value ≡ s.core.published) × (vec_len s.history + owed s.core ≤ vec_capacity s.history) };
}

// Makes a step that was prepared, and writes its event down.
#[tactic(auto, using(crate::proofs::Replays::replay_more))]
fn committed(core: &mut Core, history: &mut Vec<Event>, ready: Ready, event: Event) -> Reply
    requires from { ready.from ≡ core.old }
    requires event { ready.event ≡ event }
    requires room { vec_len history.old < vec_capacity history.old }
    requires replays { Replay empty history.old.items core.old }
    ensures step { Step core.old event result core.new }
    ensures accepted { accepts result ≡ true }
    ensures published { core.new.published ≡ ready.batches }
    ensures replays { Replay empty history.new.items core.new }
    ensures items { history.new.items ≡ history.old.items ++ event ∷ [] }
    ensures len { vec_len history.new ≡ vec_len history.old + 1 }
    ensures room { vec_capacity history.new ≡ vec_capacity history.old }
{
    let reply = core.commit(ready);
    history.push_reserved(event);
    reply
}

// The same of a step whose event no one else has.
#[tactic(auto, using(crate::proofs::Replays::replay_more))]
fn written(core: &mut Core, history: &mut Vec<Event>, ready: Ready) -> Reply
    requires from { ready.from ≡ core.old }
    requires room { vec_len history.old < vec_capacity history.old }
    requires replays { Replay empty history.old.items core.old }
    ensures step { Step core.old ready.event result core.new }
    ensures accepted { accepts result ≡ true }
    ensures published { core.new.published ≡ ready.batches }
    ensures replays { Replay empty history.new.items core.new }
    ensures items { history.new.items ≡ history.old.items ++ ready.event ∷ [] }
    ensures len { vec_len history.new ≡ vec_len history.old + 1 }
    ensures room { vec_capacity history.new ≡ vec_capacity history.old }
{
    let Committed { event, reply } = core.commit_with_event(ready);
    history.push_reserved(event);
    reply
}

// A rule as the hall shows it once it is stopped.
fn late(rule: Rule) -> Rule
    ensures { result ≡ late rule }
{
    match rule {
        Rule::H1 => Rule::H2,
        other => other,
    }
}

// The rule of a refusal.
fn refused(stopped: bool, reply: Reply) -> Rule
    requires { (rule : Rule) × (reply ≡ Reply.Refused rule) }
    ensures { (rule : Rule) × (reply ≡ Reply.Refused rule) × (result ≡ if stopped then late rule else rule) }
{
    match reply {
        Reply::Refused(rule) => { if stopped { late(rule) } else { rule } }
        _ => unreachable!(),
    }
}

// Keeps a reader. There is room for each.
fn put_back(readers: &mut Vec<BoardReader>, reader: Option<BoardReader>) {
    if let Some(reader) = reader {
        let _ = readers.push(reader);
    }
}

// The number of a session that was opened.
fn opened(reply: Reply) -> SessionId
    requires { (id : SessionId) × (reply ≡ Reply.Opened id) }
    ensures { reply ≡ Reply.Opened result }
{
    match reply {
        Reply::Opened(id) => id,
        _ => unreachable!(),
    }
}

// The number of a submission.
fn submitted(reply: Reply) -> Ticket
    requires { (ticket : Ticket) × (reply ≡ Reply.Submitted ticket) }
    ensures { reply ≡ Reply.Submitted result }
{
    match reply {
        Reply::Submitted(ticket) => ticket,
        _ => unreachable!(),
    }
}

impl HallState {
    /// An empty core, an empty board and its readers.
    ///
    /// # Errors
    ///
    /// `Rule::M0` where memory is wanting.
    pub fn new(alloc: Global) -> Result<HallState, Rule>
        ensures ok { IfOk result (λ s. s ≡ record { service = empty; history = []; stopped = false }) }
        ensures err { IfErr result (λ rule. rule ≡ Rule.M0) }
    {
        let core = Core::new(alloc)?;
        let Ok((desk, readers)) = seats(alloc, core.batches()) else {
            return Err(Rule::M0);
        };
        Ok(HallState {
            core,
            history: Vec::new(alloc),
            desk: Some(desk),
            readers,
            stopped: false,
        })
    }

    /// Hands an action out, or publishes a batch that has none. A publication waits for readers.
    pub fn take<R: Wait>(&mut self, rt: &R) -> Reply
        ensures { Recorded self.old Event.Take result self.new }
    {
        let Ok(()) = self.history.reserve(self.core.sessions() + 3) else {
            return Reply::Refused(Rule::M0);
        };
        let ready = match self.core.prepare(Event::Take) {
            Ok(ready) => ready,
            Err(reply) => return reply,
        };
        let Ok(()) = show(rt, &mut self.desk, &ready) else {
            return Reply::Refused(Rule::M0);
        };
        committed(&mut self.core, &mut self.history, ready, Event::Take)
    }

    /// Finishes an action. A publication waits for readers.
    pub fn finish<R: Wait>(&mut self, rt: &R, number: u64, part: ReadPart) -> Reply
        ensures { Recorded self.old (Event.Finish number part) result self.new }
    {
        let (Ok(()), Ok(again)) = (self.history.reserve(self.core.sessions() + 3), part.share())
        else {
            return Reply::Refused(Rule::M0);
        };
        let ready = match self.core.prepare(Event::Finish(number, again)) {
            Ok(ready) => ready,
            Err(reply) => return reply,
        };
        let Ok(()) = show(rt, &mut self.desk, &ready) else {
            return Reply::Refused(Rule::M0);
        };
        committed(
            &mut self.core,
            &mut self.history,
            ready,
            Event::Finish(number, part),
        )
    }

    /// The same where the action's input is known to be the part's, if it is not finished: no input is looked at.
    pub fn finish_known<R: Wait>(&mut self, rt: &R, number: u64, part: ReadPart) -> Reply
        requires { KnowsInput self.old.service number part.input }
        ensures { Recorded self.old (Event.Finish number part) result self.new }
    {
        let Ok(()) = self.history.reserve(self.core.sessions() + 3) else {
            return Reply::Refused(Rule::M0);
        };
        let ready = match self.core.prepare_known(number, part) {
            Ok(ready) => ready,
            Err(reply) => return reply,
        };
        let Ok(()) = show(rt, &mut self.desk, &ready) else {
            return Reply::Refused(Rule::M0);
        };
        written(&mut self.core, &mut self.history, ready)
    }

    /// Finishes an action that was handed out with the input of the last published part of its package, the one of this number, by this part: which is not
    /// handed in, so that nothing is compared. None where there is no such action, and where memory is wanting: nothing changed then. A publication waits
    /// for readers.
    pub fn finish_kept<R: Wait>(&mut self, rt: &R, place: usize, number: u64) -> Option<Reply>
        ensures { MatchOption result (self.new ≡ self.old) (λ reply. (part : PartModel) × (accepts reply ≡ true) × Recorded self.old (Event.Finish number part) reply self.new) }
    {
        let Ok(()) = self.history.reserve(self.core.sessions() + 3) else {
            return None;
        };
        let Ok(ready) = self.core.prepare_kept(place, number)? else {
            return None;
        };
        let Ok(()) = show(rt, &mut self.desk, &ready) else {
            return None;
        };
        Some(written(&mut self.core, &mut self.history, ready))
    }

    /// Opens a session, which takes a reader of the board with it.
    ///
    /// # Errors
    ///
    /// The first rule that the open breaks: once the hall is stopped, `Rule::H2` where none but `Rule::H1` is. `Rule::M0` where memory is wanting.
    #[tactic(auto, using(crate::proofs::Lengths::opened_few))]
    pub fn open(&mut self, own: Module) -> Result<(SessionId, BoardReader), Rule>
        ensures ok { IfOk result (λ p. (self.old.stopped ≡ false) × Recorded self.old (Event.Open own) (Reply.Opened p.0) self.new) }
        ensures replays { Replay empty self.old.history self.old.service }
        ensures few { OnOk result (length self.new.history ≤ 1048576) }
        ensures err { IfErr result (λ rule. (self.new ≡ self.old) × IsRefusal self.old.stopped (open_rule self.old.service own) rule) }
    {
        let (Ok(()), Ok(again)) = (self.history.reserve(self.core.sessions() + 3), own.share())
        else {
            return Err(Rule::M0);
        };
        let ready = match self.core.prepare(Event::Open(again)) {
            Ok(ready) => ready,
            Err(reply) => return Err(refused(self.stopped, reply)),
        };
        let _allowed = ready.batches();
        if self.stopped {
            return Err(Rule::H2);
        }
        // There is a reader for each session.
        let Some(reader) = self.readers.pop() else {
            return Err(Rule::M0);
        };
        let reply = committed(&mut self.core, &mut self.history, ready, Event::Open(own));
        Ok((opened(reply), reader))
    }

    /// Submits a tree.
    ///
    /// # Errors
    ///
    /// The first rule that the submission breaks: once the hall is stopped, `Rule::H2` where none but `Rule::H1` is. `Rule::M0` where memory is wanting.
    pub fn submit(&mut self, id: SessionId, tree: ModuleTree) -> Result<Ticket, Rule>
        ensures replays { Replay empty self.old.history self.old.service }
        ensures ok { IfOk result (λ ticket. (self.old.stopped ≡ false) × Recorded self.old (Event.Submit id tree) (Reply.Submitted ticket) self.new) }
        ensures err { IfErr result (λ rule. (self.new ≡ self.old) × IsRefusal self.old.stopped (submit_rule self.old.service id tree) rule) }
    {
        let (Ok(()), Ok(again)) = (self.history.reserve(self.core.sessions() + 3), tree.share())
        else {
            return Err(Rule::M0);
        };
        let ready = match self.core.prepare(Event::Submit(id, again)) {
            Ok(ready) => ready,
            Err(reply) => return Err(refused(self.stopped, reply)),
        };
        let _allowed = ready.batches();
        if self.stopped {
            return Err(Rule::H2);
        }
        let reply = committed(
            &mut self.core,
            &mut self.history,
            ready,
            Event::Submit(id, tree),
        );
        Ok(submitted(reply))
    }

    /// Closes a session, which hands its reader back. It takes no memory.
    #[tactic(auto, using(crate::proofs::Rooms::closed_room))]
    pub fn close(&mut self, id: SessionId, reader: Option<BoardReader>) -> Reply
        ensures { Recorded self.old (Event.Close id) result self.new }
    {
        put_back(&mut self.readers, reader);
        let ready = match self.core.prepare(Event::Close(id)) {
            Ok(ready) => ready,
            Err(reply) => return reply,
        };
        let _allowed = ready.batches();
        committed(&mut self.core, &mut self.history, ready, Event::Close(id))
    }

    /// Ends a batch, which is not published. It takes no memory.
    pub fn give_back(&mut self, generation: u64) -> Reply
        ensures { Recorded self.old (Event.GiveBack generation) result self.new }
    {
        let ready = match self.core.prepare(Event::GiveBack(generation)) {
            Ok(ready) => ready,
            Err(reply) => return reply,
        };
        let _allowed = ready.batches();
        committed(
            &mut self.core,
            &mut self.history,
            ready,
            Event::GiveBack(generation),
        )
    }

    /// What the packages of the batch that runs tell is one summary for each path.
    pub fn is_told_once(&self)
        ensures { RunsOnce self.now.service.running }
    {
        self.core.is_told_once();
    }

    /// From now on nothing is opened or submitted.
    pub fn stop(&mut self)
        ensures { self.new ≡ record self.old { stopped = true } }
    {
        self.stopped = true;
    }

    pub fn is_stopped(&self) -> bool
        ensures { result ≡ self.now.stopped }
    {
        self.stopped
    }

    /// How many events were accepted.
    pub fn events(&self) -> usize
        ensures { result ≡ length self.now.history }
    {
        self.history.len()
    }

    /// Where a submission stands.
    pub fn ticket(&self, ticket: Ticket) -> Option<TicketState>
        ensures { result ≡ ticket_of self.now.service ticket.0 }
    {
        self.core.ticket(ticket)
    }

    /// The events that were accepted. The board stays in memory.
    pub fn end(self) -> Vec<Event>
        ensures history { result.items ≡ self.history }
        ensures replays { Replay empty result.items self.service }
    {
        let HallState {
            core: _,
            history,
            desk: _,
            readers: _,
            stopped: _,
        } = self;
        history
    }
}
