//! A step in two: what it needs is made first, and the state changes without memory.
ghost use Rattle.std.specs.Prelude.{◌≡◌, IfErr, IfOk, IfSome, IsTrue, MatchOption, false, true};
ghost use Rattle.go_batch_core.specs.Batches.{NoneReady};
ghost use Rattle.go_submit_core.specs.package_core.PackagePartParts.{PartModel};
ghost use Rattle.go_submit_core.specs.Published.{AreSound, BeginsWith};
ghost use Rattle.go_sched_core.specs.Outs.{KnowsInput};
ghost use Rattle.go_sched_core.specs.Prepared.{IsAllowed};
ghost use Rattle.go_sched_core.specs.Steps.{Step, accepts};

use crate::change::Change;
use crate::event::{Event, Reply};
use crate::machine::Core;
use crate::running::Running;
use go_batch_core::{Batch, ReadPart, Steady};
use go_path_core::text_core::Rule;
use go_submit_core::Batches;
use std::alloc::{AllocError, Global};
use std::marker::Model;

/// A step that was prepared: all that it grows is made. Contracts see the state that it was prepared in, the event, and the published batches after it.
#[derive(Drop)]
pub struct Ready {
    from: std::snapshot::Snapshot<Core>,
    event: Event,
    change: Change,
}

impl Model for Ready {
    ghost use Rattle.go_sched_core.specs.Coding.{coded_prepared};
    ghost use Rattle.go_sched_core.specs.Prepared.{Prepared, prepared_with};
    ghost use Rattle.go_sched_core.specs.mirrors.Fitting.{Fits, batches_after};

    ghost Value = { Prepared };

    ghost coded = { coded_prepared };

    ghost view = { λ r. prepared_with r.from.value r.event (batches_after r.from.value.published r.change) };

    ghost invariant = { λ r. Fits r.from.value r.event r.change };
}

/// A step that was made: its event, and the reply to it.
#[derive(Drop)]
pub struct Committed {
    pub event: Event,
    pub reply: Reply,
}

impl Ready {
    /// The published batches after the step, where it changes them.
    #[tactic(auto, using(crate::proofs::Growing::fits_grow, crate::proofs::Growing::fits_allowed))]
    pub fn batches(&self) -> Option<&Batches>
        ensures value { MatchOption result (self.now.batches ≡ self.now.from.published) (λ b. b.now ≡ self.now.batches) }
        ensures grow { BeginsWith self.now.batches self.now.from.published }
        ensures allowed { IsAllowed self.now.from self.now.event }
    {
        match &self.change {
            Change::PublishNew(batches) => Some(batches),
            Change::PublishLast(batches) => Some(batches),
            Change::Open(_) => None,
            Change::Close(_) => None,
            Change::Submit(_) => None,
            Change::HandOut(_) => None,
            Change::Begin(_, _, _) => None,
            Change::Finish(_, _) => None,
            Change::GiveBack => None,
        }
    }

    /// The event that the step was prepared for.
    pub fn event(&self) -> &Event
        ensures { result.now ≡ self.now.event }
    {
        &self.event
    }
}

// Whether an input is likely to be made for the next action of a batch: where its package is not known to be the one of the last snapshot, or a package
// tells something else than there.
fn wants_input(batch: &Batch, steady: &Option<Steady>) -> bool
    ensures { IsTrue result → NoneReady batch.now → ⊥ }
{
    match (batch.ready(), steady) {
        (Some(place), Some(steady)) => !steady.is_same(place) || steady.has_moved(),
        (Some(_), None) => true,
        (None, _) => false,
    }
}

// Adds what is told in a batch, where an input is likely to be made for its next action.
fn tell_in(running: &mut Option<Running>, steady: &Option<Steady>) -> Result<(), AllocError>
    ensures { running.new ≡ running.old }
{
    match running {
        Some(running) => {
            if wants_input(&running.batch, steady) {
                running.batch.tell()
            } else {
                Ok(())
            }
        }
        None => Ok(()),
    }
}

impl Core {
    // Adds what is told in the batch that runs, where an input is likely to be made next. Contracts see no change.
    fn tell(&mut self) -> Result<(), AllocError>
        ensures { self.new ≡ self.old }
    {
        tell_in(&mut self.running, &self.steady)
    }

    /// Makes all that a step grows, and changes nothing.
    ///
    /// # Errors
    ///
    /// The reply, where the step is refused or there is nothing to do. The event is then gone.
    pub fn prepare(&mut self, event: Event) -> Result<Ready, Reply>
        ensures same { self.new ≡ self.old }
        ensures ok { IfOk result (λ r. (r.from ≡ self.old) × (r.event ≡ event)) }
        ensures err { IfErr result (λ reply. Step self.old event reply self.old × (accepts reply ≡ false)) }
    {
        let from = std::snapshot::Snapshot::of(&*self);
        if matches!(&event, Event::Take) && self.tell().is_err() {
            return Err(Reply::Refused(Rule::M0));
        }
        match self.change_of(&event) {
            Ok(change) => Ok(Ready {
                from,
                event,
                change,
            }),
            Err(reply) => Err(reply),
        }
    }

    /// Makes all that the end of an action grows which was taken under a number with the input of the last published part of its package, the one of this
    /// number: by this part, which the core has itself, so that nothing is compared. It changes nothing. None where there is no such action, and where
    /// the part has too many owners.
    pub fn prepare_kept(&mut self, place: usize, number: u64) -> Option<Result<Ready, Reply>>
        ensures same { self.new ≡ self.old }
        ensures ok { IfSome result (λ r. IfOk r (λ ready. (ready.from ≡ self.old) × ((part : PartModel) × (ready.event ≡ Event.Finish number part)))) }
        ensures err { IfSome result (λ r. IfErr r (λ reply. (part : PartModel) × Step self.old (Event.Finish number part) reply self.old × (accepts reply ≡ false))) }
    {
        let from = std::snapshot::Snapshot::of(&*self);
        let (part, end) = self.kept_end(place, number)?;
        match end {
            Ok(change) => Some(Ok(Ready {
                from,
                event: Event::Finish(number, part),
                change,
            })),
            Err(reply) => Some(Err(reply)),
        }
    }

    /// As `prepare` of the end of an action by a part, where the action's input is known to be the part's, if it is not finished: no input is looked at.
    ///
    /// # Errors
    ///
    /// The reply, where the step is refused. The part is then gone.
    pub fn prepare_known(&mut self, number: u64, part: ReadPart) -> Result<Ready, Reply>
        requires { KnowsInput self.old number part.input }
        ensures same { self.new ≡ self.old }
        ensures ok { IfOk result (λ r. (r.from ≡ self.old) × (r.event ≡ Event.Finish number part)) }
        ensures err { IfErr result (λ reply. Step self.old (Event.Finish number part) reply self.old × (accepts reply ≡ false)) }
    {
        let from = std::snapshot::Snapshot::of(&*self);
        match self.known_end(number, &part) {
            Ok(change) => Ok(Ready {
                from,
                event: Event::Finish(number, part),
                change,
            }),
            Err(reply) => Err(reply),
        }
    }

    /// Makes a step that was prepared, and hands its event back. It takes no memory. No step came since `ready` was made.
    pub fn commit_with_event(&mut self, ready: Ready) -> Committed
        requires { ready.from ≡ self.old }
        ensures step { Step self.old ready.event result.reply self.new }
        ensures event { result.event ≡ ready.event }
        ensures accepted { accepts result.reply ≡ true }
        ensures published { self.new.published ≡ ready.batches }
        ensures sound { AreSound self.new.published }
    {
        let Ready {
            from: _,
            event,
            change,
        } = ready;
        let reply = self.make(change, &event);
        let _last = self.published.last();
        Committed { event, reply }
    }

    /// Makes a step that was prepared. It takes no memory. No step came since `ready` was made.
    pub fn commit(&mut self, ready: Ready) -> Reply
        requires { ready.from ≡ self.old }
        ensures step { Step self.old ready.event result self.new }
        ensures accepted { accepts result ≡ true }
        ensures published { self.new.published ≡ ready.batches }
        ensures sound { AreSound self.new.published }
    {
        let Committed { event: _, reply } = self.commit_with_event(ready);
        reply
    }

    /// One step. Each published snapshot is the one of what was published up to it, before and after.
    pub fn step(&mut self, event: Event) -> Reply
        ensures step { Step self.old event result self.new }
        ensures sound { AreSound self.new.published }
    {
        match self.prepare(event) {
            Ok(ready) => self.commit(ready),
            Err(reply) => {
                let _last = self.published.last();
                reply
            }
        }
    }
}
