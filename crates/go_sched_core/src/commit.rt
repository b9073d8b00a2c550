//! The change that a step makes: nothing here takes memory.
ghost use Rattle.std.specs.Prelude.{if◌then◌else◌, ◌≡◌, ℕ, ◌+◌, ◌<◌, ◌≤◌, ◌^◌, ◌++◌, ◌∷◌, [], IfSome, None, Some, length, nat_eq, position, slice_set, true, vec_capacity};
ghost use Rattle.go_batch_core.specs.declared.slot.Slot.TheVariants.{Taken};
ghost use Rattle.go_batch_core.specs.Batches.{BatchModel, IsEnding, IsReady, actions_left, batch_with, with_part};
ghost use Rattle.go_sched_core.specs.declared.running.Running.{Running};
ghost use Rattle.go_sched_core.specs.Service.{counted, counts};
ghost use Rattle.go_sched_core.specs.Steps.{Step, accepts, held_with, session_with, ticket_with, with_batch, without_session};
ghost use Rattle.go_sched_core.specs.mirrors.Fitting.{ArePublished, Fits, FitsBegin, FitsHandOut, batches_after};
ghost use Rattle.go_sched_core.specs.mirrors.Beside.{IsMove, finished, handed};
ghost use Rattle.go_batch_core.specs.Planning.{IsPlanned};
ghost use Rattle.go_submit_core.specs.snap_core.WholeWorkspaceInputs.{IsInputAt};

use crate::change::{Change, Hand};
use crate::event::{Action, Event, Held, Reply, SessionId};
use crate::machine::Core;
use crate::rules::MAX_EVENTS;
use crate::running::Running;
use go_batch_core::{Ending, Next, Planned, Retold, Steady};
use go_path_core::Module;
use go_submit_core::package_core::PartInput;
use go_submit_core::{Batches, Submission, Ticket};
use std::collections::LinkedList;

// The count after one more accepted event.
fn counted(accepted: u64) -> u64
    ensures { result ≡ counted accepted }
{
    if accepted < MAX_EVENTS {
        accepted + 1
    } else {
        accepted
    }
}

// Pushes a session into a list that has room for it.
fn push_held(held: &mut Vec<Held>, session: Held)
    requires { length held.old.items < vec_capacity held.old }
    ensures items { held.new.items ≡ held.old.items ++ session ∷ [] }
    ensures room { vec_capacity held.old ≤ vec_capacity held.new }
{
    match held.push(session) {
        Ok(()) => {}
        Err(_) => unreachable!(),
    }
}

// Adds a list to another.
fn append_list(list: &mut LinkedList<Submission>, more: &mut LinkedList<Submission>)
    requires { length list.old + length more.old < 2 ^ 63 }
    ensures { list.new ≡ list.old ++ more.old }
{
    match list.append(more) {
        Ok(()) => {}
        Err(_) => unreachable!(),
    }
}

// Where a session stands.
fn place_of(held: &[Held], id: SessionId) -> Option<usize>
    ensures place { result ≡ position (λ h. nat_eq h.session.0 id.0) held.now }
    ensures within { IfSome result (λ k. k < length held.now) }
{
    held.iter().position(|held| held.session.0 == id.0)
}

// Hands out an action of a batch.
fn hand_out_of(running: &mut Running, place: usize, number: u64, awaited: PartInput)
    requires ready { IsReady running.old.batch place }
    requires input { IsInputAt running.old.batch.sources running.old.batch.parts place awaited }
    ensures { running.new ≡ with_batch running.old (batch_with running.old.batch.sources (slice_set running.old.batch.slots place (Taken number awaited)) running.old.batch.parts) }
{
    running.batch.hand_out(place, number, awaited);
}

// Finishes an action of a batch.
fn finish_of(running: &mut Running, ending: Ending)
    requires { IsEnding running.old.batch ending }
    ensures state { running.new ≡ with_batch running.old (with_part running.old.batch ending.place ending.part) }
    ensures left { actions_left running.new.batch + 1 ≡ actions_left running.old.batch }
{
    running.batch.finish(ending);
}

// Hands out an action of the batch that runs.
fn hand_out(running: &mut Option<Running>, place: usize, number: u64, awaited: PartInput) -> u64
    requires { (r : Running) × (running.old ≡ Some r) × IsReady r.batch place × IsInputAt r.batch.sources r.batch.parts place awaited }
    ensures { (r : Running) × (running.old ≡ Some r) × (result ≡ r.generation) × (running.new ≡ Some (with_batch r (batch_with r.batch.sources (slice_set r.batch.slots place (Taken number awaited)) r.batch.parts))) }
{
    match running {
        Some(running) => {
            hand_out_of(running, place, number, awaited);
            running.generation
        }
        None => unreachable!(),
    }
}

// Finishes an action of the batch that runs.
fn finish(running: &mut Option<Running>, ending: Ending)
    requires { (r : Running) × (running.old ≡ Some r) × IsEnding r.batch ending }
    ensures { (r : Running) × (running.old ≡ Some r) × (running.new ≡ Some (with_batch r (with_part r.batch ending.place ending.part))) × (actions_left (with_part r.batch ending.place ending.part) + 1 ≡ actions_left r.batch) }
{
    match running {
        Some(running) => finish_of(running, ending),
        None => unreachable!(),
    }
}

// The plan of the batch that runs. It is shared; none where it has too many owners.
fn planned_of(running: &Option<Running>) -> Option<Planned>
    ensures { IfSome result (λ p. (r : Running) × (running.now ≡ Some r) × IsPlanned r.batch.sources p.plan p.reached) }
{
    match running {
        Some(running) => running.batch.planned().ok(),
        None => None,
    }
}

// A place, where it is asked for.
fn place_if(is: bool, place: usize) -> Option<usize>
    ensures { result ≡ if is then Some place else None }
{
    if is { Some(place) } else { None }
}

// Marks a package whose action is handed out.
fn mark_handed(steady: &mut Option<Steady>, place: usize, kept: bool, stood: bool)
    ensures { steady.new ≡ handed steady.old place kept stood }
{
    if let Some(steady) = steady {
        steady.hand_out(place, kept, stood);
    }
}

// Marks a package whose action is finished.
fn mark_finished(steady: &mut Option<Steady>, place: usize, retold: Retold)
    ensures { steady.new ≡ finished steady.old place retold }
{
    if let Some(steady) = steady {
        steady.finish(place, retold);
    }
}

impl Core {
    fn commit_open(&mut self, own: Module) -> Reply
        requires few { length self.old.held < 32 }
        requires numbered { self.old.opened + 1 < 2 ^ 64 }
        ensures reply { result ≡ Reply.Opened (session_with (self.old.opened + 1)) }
        ensures state { self.new ≡ counts (record self.old { opened = self.old.opened + 1; held = self.old.held ++ held_with (session_with (self.old.opened + 1)) own ∷ [] }) }
    {
        self.accepted = counted(self.accepted);
        self.opened += 1;
        let session = SessionId(self.opened);
        push_held(&mut self.held, Held { session, own });
        Reply::Opened(session)
    }

    fn commit_close(&mut self, id: SessionId)
        ensures { self.new ≡ counts (record self.old { held = without_session self.old.held id }) }
    {
        self.accepted = counted(self.accepted);
        if let Some(place) = place_of(&self.held, id) {
            self.held.remove(place);
        }
    }

    fn commit_submit(&mut self, grown: LinkedList<Submission>) -> Reply
        requires one { length grown ≡ 1 }
        requires few { length self.old.waiting < 2 ^ 62 }
        requires numbered { self.old.tickets + 1 < 2 ^ 64 }
        ensures reply { result ≡ Reply.Submitted (ticket_with (self.old.tickets + 1)) }
        ensures state { self.new ≡ counts (record self.old { tickets = self.old.tickets + 1; waiting = self.old.waiting ++ grown }) }
    {
        self.accepted = counted(self.accepted);
        self.tickets += 1;
        let mut grown = grown;
        append_list(&mut self.waiting, &mut grown);
        Reply::Submitted(Ticket(self.tickets))
    }

    fn commit_give_back(&mut self)
        ensures { self.new ≡ counts (record self.old { running = None }) }
    {
        self.accepted = counted(self.accepted);
        self.steady = None;
        self.running = None;
    }

    fn commit_publish_last(&mut self, batches: Batches) -> Reply
        requires { (r : Running) × (b : BatchModel) × (self.old.running ≡ Some r) × ArePublished self.old.published (with_batch r b) batches }
        ensures reply { result ≡ Reply.Published (length batches) }
        ensures state { self.new ≡ counts (record self.old { running = None; published = batches }) }
    {
        self.accepted = counted(self.accepted);
        self.planned = planned_of(&self.running);
        self.steady = None;
        self.running = None;
        let count = batches.len() as u64;
        self.published = batches;
        Reply::Published(count)
    }

    fn commit_publish_new(&mut self, batches: Batches) -> Reply
        requires numbered { self.old.generations + 1 < 2 ^ 64 }
        ensures reply { result ≡ Reply.Published (length batches) }
        ensures state { self.new ≡ counts (record self.old { waiting = []; generations = self.old.generations + 1; running = None; published = batches }) }
    {
        self.accepted = counted(self.accepted);
        self.generations += 1;
        self.planned = None;
        self.steady = None;
        self.running = None;
        self.waiting = LinkedList::new(self.alloc);
        let count = batches.len() as u64;
        self.published = batches;
        Reply::Published(count)
    }
}

impl Core {
    fn commit_hand_out(&mut self, hand: Hand) -> Reply
        requires { FitsHandOut self.old Event.Take hand }
        ensures step { Step self.old Event.Take result self.new }
        ensures accepted { accepts result ≡ true }
        ensures published { self.new.published ≡ self.old.published }
    {
        let Hand {
            next,
            earlier,
            kept,
            stood,
            other,
        } = hand;
        let Next {
            place,
            input,
            awaited,
        } = next;
        let number = self.actions + 1;
        let generation = hand_out(&mut self.running, place, number, awaited);
        mark_handed(&mut self.steady, place, kept, stood);
        self.actions = number;
        self.accepted = counted(self.accepted);
        Reply::Act(Action {
            generation,
            number,
            input,
            earlier,
            kept: place_if(kept, place),
            other,
        })
    }

    fn commit_begin(&mut self, running: Running, steady: Option<Steady>, hand: Hand) -> Reply
        requires { FitsBegin self.old Event.Take running steady hand }
        ensures step { Step self.old Event.Take result self.new }
        ensures accepted { accepts result ≡ true }
        ensures published { self.new.published ≡ self.old.published }
    {
        let Hand {
            next,
            earlier,
            kept,
            stood,
            other,
        } = hand;
        let Next {
            place,
            input,
            awaited,
        } = next;
        let number = self.actions + 1;
        let mut running = running;
        hand_out_of(&mut running, place, number, awaited);
        let mut steady = steady;
        mark_handed(&mut steady, place, kept, stood);
        let generation = running.generation;
        self.waiting = LinkedList::new(self.alloc);
        self.generations += 1;
        self.running = Some(running);
        self.steady = steady;
        self.actions = number;
        self.accepted = counted(self.accepted);
        Reply::Act(Action {
            generation,
            number,
            input,
            earlier,
            kept: place_if(kept, place),
            other,
        })
    }

    fn commit_finish(&mut self, ending: Ending, retold: Retold)
        requires { (r : Running) × (self.old.running ≡ Some r) × IsEnding r.batch ending × IsMove self.old.published ending.place ending.part retold }
        ensures { (r : Running) × (self.old.running ≡ Some r) × (actions_left (with_part r.batch ending.place ending.part) + 1 ≡ actions_left r.batch) × (self.new ≡ counts (record self.old { running = Some (with_batch r (with_part r.batch ending.place ending.part)) })) }
    {
        mark_finished(&mut self.steady, ending.place, retold);
        finish(&mut self.running, ending);
        self.accepted = counted(self.accepted);
    }
}

impl Core {
    /// Makes the change that an event asked for. It takes no memory.
    pub(crate) fn make(&mut self, change: Change, event: &Event) -> Reply
        requires { Fits self.old event.now change }
        ensures step { Step self.old event.now result self.new }
        ensures accepted { accepts result ≡ true }
        ensures published { self.new.published ≡ batches_after self.old.published change }
    {
        // The event is what the change is known by.
        let _ = event;
        match change {
            Change::Open(own) => self.commit_open(own),
            Change::Close(id) => {
                self.commit_close(id);
                Reply::Closed
            }
            Change::Submit(grown) => self.commit_submit(grown),
            Change::HandOut(hand) => self.commit_hand_out(hand),
            Change::Begin(running, steady, hand) => self.commit_begin(running, steady, hand),
            Change::PublishNew(batches) => self.commit_publish_new(batches),
            Change::Finish(ending, retold) => {
                self.commit_finish(ending, retold);
                Reply::Finished
            }
            Change::PublishLast(batches) => self.commit_publish_last(batches),
            Change::GiveBack => {
                self.commit_give_back();
                Reply::GaveBack
            }
        }
    }
}
