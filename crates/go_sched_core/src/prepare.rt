//! What a step needs: all growth is here, and nothing changes.
ghost use Rattle.std.specs.Prelude.{◌≡◌, ℕ, ◌+◌, ◌<◌, ◌^◌, ◌++◌, ◌∷◌, [], IfErr, IfOk, IfSome, MatchOption, Some, false};
ghost use Rattle.go_graph_core.specs.Workspaces.{AreAllRead};
ghost use Rattle.go_submit_core.specs.Modules.{with_trees};
ghost use Rattle.go_submit_core.specs.Published.{IsEarlierPart, IsOneWorker, LeavesWhere, batch_of, last_of, sources_of};
ghost use Rattle.go_submit_core.specs.Submitted.{submission_with, submitted};
ghost use Rattle.go_batch_core.specs.Batches.{Awaits, IsForeign, IsKnown, IsReady, NoneReady, actions_left, with_part};
ghost use Rattle.go_batch_core.specs.Planning.{IsPlanned};
ghost use Rattle.go_batch_core.specs.Steadiness.{BeginsSteady, IsSteady};
ghost use Rattle.go_sched_core.specs.Outs.{KnowsInput};
ghost use Rattle.go_sched_core.specs.Steps.{IsFormed, Step, accepts, with_batch};
ghost use Rattle.go_sched_core.specs.mirrors.Fitting.{ArePublished, Fits, IsBeginning, IsHand};
ghost use Rattle.go_sched_core.specs.mirrors.Beside.{BeginsBeside, IsAgainBeside, IsKeptEnd, IsMove, IsSteadyBeside};

use crate::change::{Change, Hand};
use crate::event::{Event, Reply, SessionId};
use crate::machine::Core;
use crate::rules::is_running;
use crate::running::{Formed, Running};
use go_batch_core::{Batch, Over, Planned, ReadPart, Retold, Steady, plan_over};
use go_graph_core::Workspace;
use go_path_core::text_core::Rule;
use go_path_core::{ImportPath, Module};
use go_submit_core::package_core::Part;
use go_submit_core::snap_core::{SharedSnapshot, Snapshot};
use go_submit_core::{
    Batches, ModuleTree, PublishedBatch, Submission, Submissions, Ticket, add_trees,
};
use std::alloc::{AllocError, Global};
use std::collections::LinkedList;

// The most submissions that wait.
const MAX_WAITING: usize = 1 << 62;

// A part once more, the files of whose package are as they are read.
fn read_again(part: &Part) -> Result<ReadPart, AllocError>
    requires { AreAllRead part.now.input.source }
    ensures { IfOk result (λ p. p ≡ part.now) }
{
    Ok(ReadPart::new(part.share()?))
}

// The modules of submissions, each once.
fn modules_of(alloc: Global, submissions: &Submissions) -> Result<Vec<Module>, AllocError>
    ensures { IfOk result (λ v. v.items ≡ with_trees [] submissions.now) }
{
    let mut modules = Vec::new(alloc);
    add_trees(&mut modules, submissions.as_slice())?;
    Ok(modules)
}

// The plan of the packages of a snapshot with what was submitted, and what of the snapshot is as it was. Only packages inside the modules of what was
// submitted can have changed.
fn plan_with(
    alloc: Global,
    snapshot: &Snapshot,
    old: &Planned,
    submissions: &Submissions,
    sources: &Workspace,
) -> Result<Over, AllocError>
    requires planned { IsPlanned snapshot.now.sources old.now.plan old.now.reached }
    requires sources { sources.now ≡ submitted snapshot.now.sources submissions.now }
    ensures planned { IfOk result (λ o. IsPlanned sources.now o.planned.plan o.planned.reached) }
    ensures steady { IfOk result (λ o. BeginsSteady snapshot.now.sources sources.now o.steady) }
{
    let modules = modules_of(alloc, submissions)?;
    // Its packages stand in order of path.
    let _packages = sources.packages();
    plan_over(alloc, snapshot, old, modules.as_slice(), sources)
}

impl Core {
    fn prepare_open(&self, own: &Module) -> Result<Change, Reply>
        ensures ok { IfOk result (λ change. Fits self.now (Event.Open own.now) change) }
        ensures err { IfErr result (λ reply. Step self.now (Event.Open own.now) reply self.now × (accepts reply ≡ false)) }
    {
        let Ok(rule) = self.open_rule(own) else {
            return Err(Reply::Refused(Rule::M0));
        };
        if let Some(rule) = rule {
            return Err(Reply::Refused(rule));
        }
        if self.opened == u64::MAX {
            return Err(Reply::Refused(Rule::M0));
        }
        match own.share() {
            Ok(own) => Ok(Change::Open(own)),
            Err(AllocError) => Err(Reply::Refused(Rule::M0)),
        }
    }

    fn prepare_close(&self, id: SessionId) -> Result<Change, Reply>
        ensures ok { IfOk result (λ change. Fits self.now (Event.Close id) change) }
        ensures err { IfErr result (λ reply. Step self.now (Event.Close id) reply self.now × (accepts reply ≡ false)) }
    {
        match self.held_by(id) {
            Some(_) => Ok(Change::Close(id)),
            None => Err(Reply::Refused(Rule::O5)),
        }
    }

    // A submission, as a list of its own.
    fn grown(&self, tree: &ModuleTree) -> Result<LinkedList<Submission>, AllocError>
        requires { self.now.tickets + 1 < 2 ^ 64 }
        ensures { IfOk result (λ l. l ≡ submission_with (self.now.tickets + 1) tree.now ∷ []) }
    {
        let tree = tree.share()?;
        let mut grown = LinkedList::new(self.alloc);
        grown.push_back(Submission {
            ticket: Ticket(self.tickets + 1),
            tree,
        })?;
        Ok(grown)
    }

    fn prepare_submit(&self, id: SessionId, tree: &ModuleTree) -> Result<Change, Reply>
        ensures ok { IfOk result (λ change. Fits self.now (Event.Submit id tree.now) change) }
        ensures err { IfErr result (λ reply. Step self.now (Event.Submit id tree.now) reply self.now × (accepts reply ≡ false)) }
    {
        if let Some(rule) = self.submit_rule(id, tree) {
            return Err(Reply::Refused(rule));
        }
        if self.tickets == u64::MAX || self.waiting.len() >= MAX_WAITING {
            return Err(Reply::Refused(Rule::M0));
        }
        match self.grown(tree) {
            Ok(grown) => Ok(Change::Submit(grown)),
            Err(AllocError) => Err(Reply::Refused(Rule::M0)),
        }
    }

    fn prepare_give_back(&self, generation: u64) -> Result<Change, Reply>
        ensures ok { IfOk result (λ change. Fits self.now (Event.GiveBack generation) change) }
        ensures err { IfErr result (λ reply. Step self.now (Event.GiveBack generation) reply self.now × (accepts reply ≡ false)) }
    {
        if is_running(&self.running, generation) {
            Ok(Change::GiveBack)
        } else {
            Err(Reply::Refused(Rule::Z1))
        }
    }
}

impl Core {
    // The last published part of the package of a path.
    fn earlier(&self, path: &ImportPath) -> Result<Option<ReadPart>, AllocError>
        ensures { IfOk result (λ part. IsEarlierPart self.now.published path.now part) }
    {
        match self.published.earlier_part(path)? {
            Some(part) => Ok(Some(ReadPart::new(part))),
            None => Ok(None),
        }
    }

    // A ready action of a batch, with the input of the last published part of its package, where that is known to be its input.
    fn kept_hand(
        &self,
        batch: &Batch,
        steady: &Steady,
        last: &PublishedBatch,
        place: usize,
    ) -> Result<Option<Hand>, AllocError>
        requires ready { IsReady batch.now place }
        requires last { last_of self.now.published ≡ Some last.now }
        requires steady { IsSteady last.now.snapshot batch.now steady.now }
        ensures { IfOk result (λ o. IfSome o (IsHand self.now.published batch.now)) }
    {
        let snapshot = last.snapshot.get();
        let Some(part) = steady.part_at(self.alloc, batch, snapshot, place)? else {
            return Ok(None);
        };
        let input = part.input().share()?;
        let next = batch.next_with(place, input)?;
        let earlier = read_again(part)?;
        Ok(Some(Hand {
            next,
            earlier: Some(earlier),
            kept: true,
            stood: false,
            other: false,
        }))
    }

    // A ready action of a batch, with an input that is made.
    fn new_hand(&self, batch: &Batch, place: usize, other: bool) -> Result<Hand, AllocError>
        requires { IsReady batch.now place }
        ensures { IfOk result (IsHand self.now.published batch.now) }
    {
        let next = batch.next_at(self.alloc, place)?;
        let earlier = self.earlier(next.input.get().path())?;
        Ok(Hand {
            next,
            earlier,
            kept: false,
            stood: false,
            other,
        })
    }

    // A ready action of a batch, with an input that is made and the last published part of its package over it, where that part is known to stand over it.
    fn standing_hand(
        &self,
        batch: &Batch,
        steady: &Steady,
        last: &PublishedBatch,
        place: usize,
    ) -> Result<Option<Hand>, AllocError>
        requires ready { IsReady batch.now place }
        requires last { last_of self.now.published ≡ Some last.now }
        requires steady { IsSteady last.now.snapshot batch.now steady.now }
        ensures { IfOk result (λ o. IfSome o (IsHand self.now.published batch.now)) }
    {
        let snapshot = last.snapshot.get();
        let Some(part) = steady.standing_at(self.alloc, batch, snapshot, place)? else {
            return Ok(None);
        };
        let next = batch.next_standing(self.alloc, place, part)?;
        let earlier = read_again(part)?;
        Ok(Some(Hand {
            next,
            earlier: Some(earlier),
            kept: false,
            stood: true,
            other: true,
        }))
    }

    // A ready action of a batch.
    fn hand_at(
        &self,
        batch: &Batch,
        steady: &Option<Steady>,
        place: usize,
    ) -> Result<Hand, AllocError>
        requires ready { IsReady batch.now place }
        requires steady { IsSteadyBeside self.now.published batch.now steady.now }
        ensures { IfOk result (IsHand self.now.published batch.now) }
    {
        let (Some(steady), Some(last)) = (steady, self.published.last()) else {
            return self.new_hand(batch, place, false);
        };
        if let Some(hand) = self.kept_hand(batch, steady, last, place)? {
            return Ok(hand);
        }
        match self.standing_hand(batch, steady, last, place)? {
            Some(hand) => Ok(hand),
            // Where the package is the same, one that it reaches tells something else.
            None => self.new_hand(batch, place, steady.is_same(place)),
        }
    }

    // An action of a batch that is ready, if there is one.
    fn hand_of(&self, batch: &Batch, steady: &Option<Steady>) -> Result<Option<Hand>, AllocError>
        requires { IsSteadyBeside self.now.published batch.now steady.now }
        ensures { IfOk result (λ o. MatchOption o (NoneReady batch.now) (IsHand self.now.published batch.now)) }
    {
        match batch.ready() {
            Some(place) => Ok(Some(self.hand_at(batch, steady, place)?)),
            None => Ok(None),
        }
    }

    // What waits, once more.
    fn waiting_again(&self) -> Result<Vec<Submission>, AllocError>
        ensures { IfOk result (λ v. v.items ≡ self.now.waiting) }
    {
        let mut again = Vec::new(self.alloc);
        for submission in self.waiting.iter() {
            again.push(Submission {
                ticket: submission.ticket,
                tree: submission.tree.share()?,
            })?;
        }
        Ok(again)
    }

    // The plan of what is to be compiled, and what of the last snapshot is as it was in it, where that is known.
    fn planned_with(
        &self,
        submissions: &Submissions,
        sources: &Workspace,
    ) -> Result<(Planned, Option<Steady>), AllocError>
        requires { sources.now ≡ submitted (sources_of self.now.published) submissions.now }
        ensures planned { IfOk result (λ p. IsPlanned sources.now p.0.plan p.0.reached) }
        ensures steady { IfOk result (λ p. BeginsBeside self.now.published sources.now p.1) }
    {
        match (&self.planned, self.published.last()) {
            (Some(planned), Some(last)) => {
                let over = plan_with(
                    self.alloc,
                    last.snapshot.get(),
                    planned,
                    submissions,
                    sources,
                )?;
                Ok((over.planned, Some(over.steady)))
            }
            _ => Ok((Planned::of(self.alloc, sources)?, None)),
        }
    }

    // The batch of all that waits.
    fn formed(&self) -> Result<Formed, AllocError>
        requires { self.now.generations + 1 < 2 ^ 64 }
        ensures formed { IfOk result (λ f. IsFormed self.now f.running) }
        ensures steady { IfOk result (λ f. IsSteadyBeside self.now.published f.running.batch f.steady) }
    {
        let submissions = Submissions::new(self.alloc, self.waiting_again()?)?;
        let sources = submissions.put_into(self.published.sources(self.alloc)?)?;
        let (planned, steady) = self.planned_with(&submissions, &sources)?;
        let batch = Batch::begin(self.alloc, sources, planned)?;
        let running = Running {
            generation: self.generations + 1,
            submissions,
            batch,
        };
        Ok(Formed { running, steady })
    }

    // The marks of the packages that a batch leaves as they were in the last published one, with the same part, by the snapshot that it ended with: none
    // where nothing is known of them.
    fn left_by<'a>(&self, steady: &'a Option<Steady>, snapshot: &Snapshot) -> &'a [bool]
        requires { IsAgainBeside self.now.published snapshot.now steady.now }
        ensures { LeavesWhere (last_of self.now.published) snapshot.now result.now }
    {
        let (Some(steady), Some(last)) = (steady, self.published.last()) else {
            return &[];
        };
        steady.left(last.snapshot.get(), snapshot)
    }

    // The published batches with one more. The marks say which packages are as they are in the last one, with the same part.
    fn published_with(
        &self,
        submissions: &Submissions,
        snapshot: Snapshot,
        same: &[bool],
    ) -> Result<Batches, AllocError>
        requires whole { IsOneWorker (submitted (sources_of self.now.published) submissions.now) snapshot }
        requires leaves { LeavesWhere (last_of self.now.published) snapshot same.now }
        ensures { IfOk result (λ bs. bs ≡ self.now.published ++ batch_of submissions.now snapshot ∷ []) }
    {
        let snapshot = SharedSnapshot::new(self.alloc, snapshot)?;
        let submissions = submissions.share()?;
        self.published.with_batch(
            self.alloc,
            PublishedBatch {
                submissions,
                snapshot,
            },
            same,
        )
    }

    // The published batches with a new one, which has no action.
    fn published_new(
        &self,
        running: &Running,
        steady: &Option<Steady>,
    ) -> Result<Batches, AllocError>
        requires formed { IsFormed self.now running.now }
        requires steady { IsSteadyBeside self.now.published running.now.batch steady.now }
        requires over { actions_left running.now.batch ≡ 0 }
        ensures { IfOk result (λ bs. ArePublished self.now.published running.now bs) }
    {
        let snapshot = running.batch.snapshot(self.alloc)?;
        let same = self.left_by(steady, &snapshot);
        self.published_with(&running.submissions, snapshot, same)
    }

    // The published batches with the one that runs, which gets its last part.
    fn published_last(
        &self,
        running: &Running,
        place: usize,
        part: &ReadPart,
    ) -> Result<Batches, AllocError>
        requires running { self.now.running ≡ Some running.now }
        requires awaits { (number : ℕ) × Awaits running.now.batch place number part.now }
        requires last { actions_left running.now.batch ≡ 1 }
        ensures { IfOk result (λ bs. ArePublished self.now.published (with_batch running.now (with_part running.now.batch place part.now)) bs) }
    {
        let snapshot = running.batch.snapshot_with(self.alloc, place, part)?;
        let same = self.left_by(&self.steady, &snapshot);
        self.published_with(&running.submissions, snapshot, same)
    }
}

impl Core {
    // A take where this batch runs.
    fn prepare_hand(&self, running: &Running) -> Result<Change, Reply>
        requires running { self.now.running ≡ Some running.now }
        requires numbered { self.now.actions + 1 < 2 ^ 64 }
        ensures ok { IfOk result (λ change. Fits self.now Event.Take change) }
        ensures err { IfErr result (λ reply. Step self.now Event.Take reply self.now × (accepts reply ≡ false)) }
    {
        match self.hand_of(&running.batch, &self.steady) {
            Ok(Some(hand)) => Ok(Change::HandOut(hand)),
            Ok(None) => Err(Reply::Idle),
            Err(AllocError) => Err(Reply::Refused(Rule::M0)),
        }
    }

    // A take where this batch is formed.
    fn prepare_formed(&self, formed: Formed) -> Result<Change, Reply>
        requires begins { IsBeginning self.now Event.Take formed.running }
        requires steady { IsSteadyBeside self.now.published formed.running.batch formed.steady }
        requires numbered { self.now.actions + 1 < 2 ^ 64 }
        ensures ok { IfOk result (λ change. Fits self.now Event.Take change) }
        ensures err { IfErr result (λ reply. Step self.now Event.Take reply self.now × (accepts reply ≡ false)) }
    {
        let Formed { running, steady } = formed;
        if running.batch.left() == 0 {
            return match self.published_new(&running, &steady) {
                Ok(batches) => Ok(Change::PublishNew(batches)),
                Err(AllocError) => Err(Reply::Refused(Rule::M0)),
            };
        }
        match self.hand_of(&running.batch, &steady) {
            Ok(Some(hand)) => Ok(Change::Begin(running, steady, hand)),
            // Where actions are left, one is ready.
            Ok(None) => unreachable!(),
            Err(AllocError) => Err(Reply::Refused(Rule::M0)),
        }
    }

    fn prepare_take(&self) -> Result<Change, Reply>
        ensures ok { IfOk result (λ change. Fits self.now Event.Take change) }
        ensures err { IfErr result (λ reply. Step self.now Event.Take reply self.now × (accepts reply ≡ false)) }
    {
        if self.actions == u64::MAX || self.generations == u64::MAX {
            return Err(Reply::Refused(Rule::M0));
        }
        if let Some(running) = &self.running {
            return self.prepare_hand(running);
        }
        if self.waiting.is_empty() {
            return Err(Reply::Idle);
        }
        match self.formed() {
            Ok(formed) => self.prepare_formed(formed),
            Err(AllocError) => Err(Reply::Refused(Rule::M0)),
        }
    }

    // What a part that ends an action tells beside what the last published part of its package tells.
    fn retold(&self, running: &Running, place: usize, number: u64, part: &ReadPart) -> Retold
        requires running { self.now.running ≡ Some running.now }
        requires awaits { Awaits running.now.batch place number part.now }
        ensures { IsMove self.now.published place part.now result }
    {
        let Some(last) = self.published.last() else {
            return Retold::OtherTypes;
        };
        let snapshot = last.snapshot.get();
        if let Some(steady) = &self.steady {
            if steady.has_stood(&running.batch, snapshot, place, number, part) {
                return Retold::Same;
            }
        }
        Steady::retold(snapshot, place, part)
    }

    // The end of an action of the batch that runs, which was taken under a number.
    fn prepare_end(
        &self,
        running: &Running,
        place: usize,
        number: u64,
        part: &ReadPart,
        retold: Retold,
    ) -> Result<Change, Reply>
        requires running { self.now.running ≡ Some running.now }
        requires awaits { Awaits running.now.batch place number part.now }
        requires retold { IsMove self.now.published place part.now retold }
        ensures ok { IfOk result (λ change. Fits self.now (Event.Finish number part.now) change) }
        ensures err { IfErr result (λ reply. Step self.now (Event.Finish number part.now) reply self.now × (accepts reply ≡ false)) }
    {
        // The number is what the action is known by.
        let _ = number;
        if running.batch.left() != 1 {
            return match running.batch.ending(place, part) {
                Ok(ending) => Ok(Change::Finish(ending, retold)),
                Err(AllocError) => Err(Reply::Refused(Rule::M0)),
            };
        }
        match self.published_last(running, place, part) {
            Ok(batches) => Ok(Change::PublishLast(batches)),
            Err(AllocError) => Err(Reply::Refused(Rule::M0)),
        }
    }

    // The end of the action of the batch that runs that awaits a part under a number, if one does.
    fn prepare_at(
        &self,
        running: &Running,
        place: Option<usize>,
        number: u64,
        part: &ReadPart,
    ) -> Result<Change, Reply>
        requires running { self.now.running ≡ Some running.now }
        requires awaits { MatchOption place (IsForeign running.now.batch number part.now) (λ place. Awaits running.now.batch place number part.now) }
        ensures ok { IfOk result (λ change. Fits self.now (Event.Finish number part.now) change) }
        ensures err { IfErr result (λ reply. Step self.now (Event.Finish number part.now) reply self.now × (accepts reply ≡ false)) }
    {
        let Some(place) = place else {
            return Err(Reply::Refused(Rule::Z1));
        };
        let retold = self.retold(running, place, number, part);
        self.prepare_end(running, place, number, part, retold)
    }

    fn prepare_finish(&self, number: u64, part: &ReadPart) -> Result<Change, Reply>
        ensures ok { IfOk result (λ change. Fits self.now (Event.Finish number part.now) change) }
        ensures err { IfErr result (λ reply. Step self.now (Event.Finish number part.now) reply self.now × (accepts reply ≡ false)) }
    {
        let Some(running) = &self.running else {
            return Err(Reply::Refused(Rule::Z1));
        };
        let place = running.batch.awaiting(number, part);
        self.prepare_at(running, place, number, part)
    }

    /// The same where the input of the action of the number is known to be the part's, if it is not finished: no input is looked at.
    pub(crate) fn known_end(&self, number: u64, part: &ReadPart) -> Result<Change, Reply>
        requires { KnowsInput self.now number part.now.input }
        ensures ok { IfOk result (λ change. Fits self.now (Event.Finish number part.now) change) }
        ensures err { IfErr result (λ reply. Step self.now (Event.Finish number part.now) reply self.now × (accepts reply ≡ false)) }
    {
        let Some(running) = &self.running else {
            return Err(Reply::Refused(Rule::Z1));
        };
        let place = running.batch.awaiting_known(number, part);
        self.prepare_at(running, place, number, part)
    }

    // The last published part of the package of a number, whose action was taken under a number with the input of this part, and is not finished.
    fn kept_part(&self, place: usize, number: u64) -> Option<(&Running, &Part)>
        ensures kept { IfSome result (λ f. (self.now.running ≡ Some f.0.now) × IsKeptEnd self.now.published f.0.now.batch place number f.1.now) }
        ensures read { IfSome result (λ f. AreAllRead f.1.now.input.source) }
    {
        let (Some(running), Some(steady), Some(last)) = (
            &self.running,
            &self.steady,
            self.published.last(),
        ) else {
            return None;
        };
        let part = steady.kept_at(&running.batch, last.snapshot.get(), place, number)?;
        Some((running, part))
    }

    /// The end of an action of the batch that runs that was handed out with the input of its earlier part, by this part: which is not looked at. None where
    /// there is no such action, and where the part has too many owners.
    pub(crate) fn kept_end(
        &self,
        place: usize,
        number: u64,
    ) -> Option<(ReadPart, Result<Change, Reply>)>
        ensures ok { IfSome result (λ f. IfOk f.1 (λ change. Fits self.now (Event.Finish number f.0) change)) }
        ensures err { IfSome result (λ f. IfErr f.1 (λ reply. Step self.now (Event.Finish number f.0) reply self.now × (accepts reply ≡ false))) }
    {
        let (running, part) = self.kept_part(place, number)?;
        let Ok(part) = read_again(part) else {
            return None;
        };
        let change = self.prepare_end(running, place, number, &part, Retold::Same);
        Some((part, change))
    }

    /// The change that an event asks for.
    ///
    /// # Errors
    ///
    /// The reply, where the event is refused or there is nothing to do.
    pub(crate) fn change_of(&self, event: &Event) -> Result<Change, Reply>
        ensures ok { IfOk result (λ change. Fits self.now event.now change) }
        ensures err { IfErr result (λ reply. Step self.now event.now reply self.now × (accepts reply ≡ false)) }
    {
        match event {
            Event::Open(own) => self.prepare_open(own),
            Event::Close(id) => self.prepare_close(*id),
            Event::Submit(id, tree) => self.prepare_submit(*id, tree),
            Event::Take => self.prepare_take(),
            Event::Finish(number, part) => self.prepare_finish(*number, part),
            Event::GiveBack(generation) => self.prepare_give_back(*generation),
        }
    }
}
