//! The running batch.
ghost use Rattle.std.specs.Prelude.{◌≡◌, ◌+◌, ◌↔◌, ℕ, Contains, IfOk, IsTrue, MatchOption, Some, false, length, map, slice_get, slice_set, true};
ghost use Rattle.go_block_core.specs.graph_core.Plans.{AreImporters, IsOrderly};
ghost use Rattle.go_block_core.specs.graph_core.Imports.{IsOutcome};
ghost use Rattle.go_block_core.specs.graph_core.Workspaces.{AreAllRead, IsWorkspace};
ghost use Rattle.go_block_core.specs.graph_core.declared.imports.ImportAt.{ImportAt};
ghost use Rattle.go_block_core.specs.graph_core.declared.imports.ImportOutcome.TheVariants.{Package};
ghost use Rattle.go_snap_core.specs.whole_workspace.mirrors.Steps.{AreRight};
ghost use Rattle.go_snap_core.specs.make.Telling.{told_of};
ghost use Rattle.go_package_core.specs.package_part.Inputs.{InputModel};
ghost use Rattle.go_package_core.specs.package_part.Parts.{IsPart};
ghost use Rattle.go_snap_core.specs.whole_workspace.Inputs.{AreParts, HasReached, IsInputAt, ReachesPackage};
ghost use Rattle.go_snap_core.specs.Snapshots.{IsSnapshot};
ghost use Rattle.go_batch_core.specs.declared.slot.Slot.TheVariants.{Taken};
ghost use Rattle.go_batch_core.specs.Batches.{Awaits, HasImports, IsBegun, IsBusy, IsEnding, IsForeign, IsKnown, IsNext, IsReady, NoneReady, StandsOnInputs, actions_left, batch_with, with_part};
ghost use Rattle.go_batch_core.specs.Telling.{IsToldOnce};
ghost use Rattle.go_batch_core.specs.Planning.{IsPlanned};
ghost use Rattle.go_batch_core.specs.mirrors.Keeping.{AreFreshSlots, IsReadSlot, mark_of};

use crate::begin::{left_of, marks_of, slots_of};
use crate::marks::is_marked;
use crate::planned::{Planned, SharedReached};
use crate::read::{ReadInput, ReadPart};
use crate::rows::{files_at, rows_marked};
use crate::seen::inputs_are_local;
use crate::slot::Slot;
use crate::tell::{Tell, push_tell, tell_all, told_with};
use go_block_core::graph_core::Workspace;
use go_digraph_core::ready_queue::Turns;
use go_import_core::head::ListedPlan;
use go_package_core::package_part::{Part, PartInput, Parts, one_part};
use go_snap_core::make::{Told, input_of, input_over, package_of};
use go_snap_core::whole_workspace::{inputs_stay, parts_come_in_order};
use go_snap_core::{Snapshot, join_parts};
use std::alloc::{AllocError, Global};
use std::marker::Model;

/// The batch that is compiled: its workspace, what is done with the action of each package, and the parts that are there. Contracts see these
/// three. A call takes the time of the package's own imports, of what it reaches, and of the packages that import it; no call goes over all packages but
/// `begin`, those that make the snapshot, and `next_at` where a package was finished since the last `tell`, which then copies a number for each. What a
/// package tells that was finished is added to what is told by `tell`, in place, or beside it where an input is made.
pub struct Batch {
    sources: Workspace,
    plan: ListedPlan,
    reached: SharedReached,
    turns: Turns,
    slots: Vec<Slot>,
    parts: Parts,
    told: Told,
    // What is told by packages that are finished, and not added yet.
    untold: Vec<Tell>,
    left: usize,
}

impl Drop for Batch {
    fn drop(self) {
        let Batch {
            sources: _,
            plan: _,
            reached: _,
            turns: _,
            slots: _,
            parts: _,
            told: _,
            untold: _,
            left: _,
        } = self;
    }
}

impl Model for Batch {
    ghost use Rattle.std.specs.Prelude.{vec_capacity};
    ghost use Rattle.go_batch_core.specs.Batches.{BatchModel, batch_with};
    ghost use Rattle.go_batch_core.specs.Coding.{coded_batch};
    ghost use Rattle.go_batch_core.specs.mirrors.Keeping.{IsKept};

    ghost Value = { BatchModel };

    ghost coded = { coded_batch };

    ghost view = { λ b. batch_with b.sources b.slots.items b.parts };

    ghost invariant = { λ b. IsKept b.sources b.plan b.reached b.turns b.slots.items b.parts b.told b.untold.items (vec_capacity b.untold) b.left };
}

/// An action that is ready: the number of its package, its input, and the input that is awaited, which is the same.
#[derive(Drop)]
pub struct Next {
    pub place: usize,
    pub input: ReadInput,
    pub awaited: PartInput,
}

/// The end of an action: the number of its package, its part, and the part once more, for what it tells.
#[derive(Drop)]
pub struct Ending {
    pub place: usize,
    pub part: Part,
    pub tell: Tell,
}

// Whether a slot awaits a part of this input under this number.
fn is_awaited(slot: &Slot, number: u64, input: &PartInput) -> bool
    requires own { IsReadSlot slot.now }
    requires other { AreAllRead input.now.source }
    ensures { IsTrue result ↔ (slot.now ≡ Taken number input.now) }
{
    match slot {
        Slot::Taken(taken, awaited) => *taken == number && awaited.is_same(input),
        Slot::NoAction => false,
        Slot::Untaken => false,
        Slot::Finished => false,
    }
}

// Whether a slot awaits a part under this number.
fn is_taken_under(slot: &Slot, number: u64) -> bool
    ensures taken { IsTrue result → (input : InputModel) × (slot.now ≡ Taken number input) }
    ensures other { result ≡ false → (input : InputModel) → slot.now ≡ Taken number input → ⊥ }
{
    match slot {
        Slot::Taken(taken, _) => *taken == number,
        Slot::NoAction => false,
        Slot::Untaken => false,
        Slot::Finished => false,
    }
}

// Whether one of these numbers is marked.
fn any_marked(numbers: &[usize], marks: &[bool]) -> bool
    ensures { result ≡ false → (m : ℕ) → Contains numbers.now m → slice_get marks.now m ≡ Some true → ⊥ }
{
    for number in numbers {
        if is_marked(marks, *number) {
            return true;
        }
    }
    false
}

// Which packages may be taken, where these are the slots of a plan.
fn turns_of(alloc: Global, plan: &ListedPlan, slots: &[Slot]) -> Result<Turns, AllocError>
    requires many { length slots.now ≡ length plan.now.outcomes }
    requires fresh { AreFreshSlots slots.now }
    ensures marks { IfOk result (λ t. t.marks ≡ map mark_of slots.now) }
    ensures importers { IfOk result (λ t. AreImporters plan.now t.needing) }
    ensures many { IfOk result (λ t. length t.needing ≡ length plan.now.outcomes) }
{
    let marks = marks_of(alloc, slots)?;
    let needing = plan.importers()?;
    let turns = Turns::new(alloc, marks, needing)?;
    Ok(turns)
}

impl Batch {
    /// A batch with an action for each assembled package of a workspace, which is planned.
    ///
    /// # Errors
    ///
    /// `AllocError` where memory is wanting.
    pub fn begin(alloc: Global, sources: Workspace, planned: Planned) -> Result<Batch, AllocError>
        requires { IsPlanned sources planned.plan planned.reached }
        ensures begun { IfOk result (λ b. IsBegun sources b) }
        ensures busy { IfOk result (λ b. IsBusy b) }
    {
        let Planned { plan, reached } = planned;
        let count = sources.packages().len();
        let slots = slots_of(alloc, count, plan.order())?;
        let turns = turns_of(alloc, &plan, &slots)?;
        let parts = Parts::none(alloc, count)?;
        let told = Told::new(alloc, count)?;
        let left = left_of(&slots);
        let untold = Vec::with_capacity(alloc, left)?;
        Ok(Batch {
            sources,
            plan,
            reached,
            turns,
            slots,
            parts,
            told,
            untold,
            left,
        })
    }

    /// The plan of the workspace and what its packages reach. They are shared.
    ///
    /// # Errors
    ///
    /// `AllocError` where they have too many owners.
    pub fn planned(&self) -> Result<Planned, AllocError>
        ensures { IfOk result (λ p. IsPlanned self.now.sources p.plan p.reached) }
    {
        Ok(Planned {
            plan: self.plan.share()?,
            reached: self.reached.share()?,
        })
    }

    /// The workspace.
    pub fn sources(&self) -> &Workspace
        ensures { result.now ≡ self.now.sources }
    {
        &self.sources
    }

    /// How many actions are not finished.
    pub fn left(&self) -> usize
        ensures { result ≡ actions_left self.now }
    {
        self.left
    }

    // What the part of a package is made from whose action is ready, by what all packages tell that are finished.
    fn input_by(&self, alloc: Global, place: usize, told: &Told) -> Result<PartInput, AllocError>
        requires ready { IsReady self.now place }
        requires told { told.now ≡ told_of self.now.parts }
        ensures { IfOk result (λ i. IsInputAt self.now.sources self.now.parts place i) }
    {
        parts_come_in_order();
        let parts = self.parts.as_slice();
        let input = input_of(
            alloc,
            &self.sources,
            self.plan.as_plan(),
            self.reached.get(),
            place,
            parts,
            told,
        )?;
        Ok(input)
    }

    // What the part of a package is made from whose action is ready.
    fn input_at(&self, alloc: Global, place: usize) -> Result<PartInput, AllocError>
        requires { IsReady self.now place }
        ensures { IfOk result (λ i. IsInputAt self.now.sources self.now.parts place i) }
    {
        if self.untold.is_empty() {
            return self.input_by(alloc, place, &self.told);
        }
        let told = told_with(alloc, &self.told, &self.untold)?;
        self.input_by(alloc, place, &told)
    }

    // The same by what all packages tell that are finished, where an earlier input has the files of the package, and what its imports come to.
    fn input_over_by(
        &self,
        alloc: Global,
        place: usize,
        told: &Told,
        earlier: &PartInput,
    ) -> Result<PartInput, AllocError>
        requires ready { IsReady self.now place }
        requires told { told.now ≡ told_of self.now.parts }
        requires imports { HasImports self.now place earlier.now }
        ensures { IfOk result (λ i. IsInputAt self.now.sources self.now.parts place i) }
    {
        parts_come_in_order();
        let parts = self.parts.as_slice();
        let input = input_over(
            alloc,
            &self.sources,
            self.plan.as_plan(),
            self.reached.get(),
            place,
            parts,
            told,
            earlier,
        )?;
        Ok(input)
    }

    // The same.
    fn input_over_at(
        &self,
        alloc: Global,
        place: usize,
        earlier: &PartInput,
    ) -> Result<PartInput, AllocError>
        requires ready { IsReady self.now place }
        requires imports { HasImports self.now place earlier.now }
        ensures { IfOk result (λ i. IsInputAt self.now.sources self.now.parts place i) }
    {
        if self.untold.is_empty() {
            return self.input_over_by(alloc, place, &self.told, earlier);
        }
        let told = told_with(alloc, &self.told, &self.untold)?;
        self.input_over_by(alloc, place, &told, earlier)
    }

    // What the package of an action reaches that is ready has its parts.
    pub(crate) fn has_reached(&self, place: usize)
        requires { IsReady self.now place }
        ensures { HasReached self.now.sources self.now.parts place }
    {
        let _ = place;
        parts_come_in_order();
        let _parts = self.parts.as_slice();
    }

    // The packages are those of a workspace, and each part that is there is made of its input.
    pub(crate) fn has_right_parts(&self)
        ensures well { IsWorkspace self.now.sources }
        ensures right { AreRight self.now.sources self.now.parts }
    {
        let _parts = self.parts.as_slice();
    }

    /// What the packages tell that are finished is one summary for each path.
    pub fn is_told_once(&self)
        ensures { IsToldOnce self.now }
    {
        one_part();
        let _parts = self.parts.as_slice();
    }

    /// The package of an action that is ready, if there is one.
    pub fn ready(&self) -> Option<usize>
        ensures { MatchOption result (NoneReady self.now) (IsReady self.now) }
    {
        self.turns.next()
    }

    /// An action that is ready, with an input that is made of what the packages tell that are finished.
    ///
    /// # Errors
    ///
    /// `AllocError` where memory is wanting.
    pub fn next_at(&self, alloc: Global, place: usize) -> Result<Next, AllocError>
        requires { IsReady self.now place }
        ensures place { IfOk result (λ x. x.place ≡ place) }
        ensures next { IfOk result (IsNext self.now) }
    {
        let input = self.input_at(alloc, place)?;
        self.next_with(place, input)
    }

    /// An action that is ready, with the input that its package has.
    ///
    /// # Errors
    ///
    /// `AllocError` where the input has too many owners.
    pub fn next_with(&self, place: usize, input: PartInput) -> Result<Next, AllocError>
        requires ready { IsReady self.now place }
        requires input { IsInputAt self.now.sources self.now.parts place input }
        ensures place { IfOk result (λ x. x.place ≡ place) }
        ensures input { IfOk result (λ x. x.input ≡ input) }
        ensures next { IfOk result (IsNext self.now) }
    {
        // Its files are as they are read, and what it reaches is finished.
        inputs_are_local();
        let _packages = self.sources.packages();
        let _count = self.parts.as_slice();
        let awaited = input.share()?;
        Ok(Next {
            place,
            input: ReadInput::new(input),
            awaited,
        })
    }

    // An action that is ready, with the input that its package has, and its part, which is known.
    fn next_known(&self, place: usize, part: Part) -> Result<Next, AllocError>
        requires ready { IsReady self.now place }
        requires input { IsInputAt self.now.sources self.now.parts place part.input }
        ensures place { IfOk result (λ x. x.place ≡ place) }
        ensures input { IfOk result (λ x. x.input ≡ part.input) }
        ensures next { IfOk result (IsNext self.now) }
    {
        // Its files are as they are read, and what it reaches is finished.
        inputs_are_local();
        let _packages = self.sources.packages();
        let _count = self.parts.as_slice();
        let awaited = part.input().share()?;
        let input = ReadInput::known(part)?;
        Ok(Next {
            place,
            input,
            awaited,
        })
    }

    /// An action that is ready, with an input that is made of what the packages tell that are finished, and its part, which is known: where its package has
    /// the files of this part, its imports come to what they came to there, and its input gives what this part has. The content is shared.
    ///
    /// # Errors
    ///
    /// `AllocError` where memory is wanting.
    pub fn next_standing(
        &self,
        alloc: Global,
        place: usize,
        part: &Part,
    ) -> Result<Next, AllocError>
        requires ready { IsReady self.now place }
        requires imports { HasImports self.now place part.now.input }
        requires stands { StandsOnInputs self.now place part.now.content }
        ensures place { IfOk result (λ x. x.place ≡ place) }
        ensures made { IfOk result (λ x. IsPart x.input part.now.content) }
        ensures next { IfOk result (IsNext self.now) }
    {
        let input = self.input_over_at(alloc, place, part.input())?;
        let _reached = input.reached();
        let known = part.with_input(alloc, input)?;
        let next = self.next_known(place, known)?;
        Ok(next)
    }

    /// Adds what is told by packages that were finished since the last call, in place, so that inputs are made sooner. Contracts see no change.
    ///
    /// # Errors
    ///
    /// `AllocError` where memory is wanting.
    pub fn tell(&mut self) -> Result<(), AllocError>
        ensures { self.new ≡ self.old }
    {
        tell_all(&mut self.told, &self.untold)?;
        self.untold.truncate(0);
        Ok(())
    }

    /// Whether the package of a number reaches one that is marked.
    ///
    /// # Errors
    ///
    /// `AllocError` where memory is wanting.
    pub fn reaches_marked(
        &self,
        alloc: Global,
        place: usize,
        marks: &[bool],
    ) -> Result<bool, AllocError>
        ensures { IfOk result (λ is. is ≡ false → (m : ℕ) → ReachesPackage self.now.sources place m → slice_get marks.now m ≡ Some true → ⊥) }
    {
        let Some(set) = self.reached.get().of(place) else {
            return Ok(true);
        };
        let numbers = set.list(alloc)?;
        Ok(any_marked(&numbers, marks))
    }

    /// Whether an import of the package of a number comes to one that is marked. The time is linear in its imports.
    pub fn imports_marked(&self, place: usize, marks: &[bool]) -> bool
        ensures { result ≡ false → (at : ImportAt) (m : ℕ) → at.«package» ≡ place → IsOutcome self.now.sources at (Package m) → slice_get marks.now m ≡ Some true → ⊥ }
    {
        let files = files_at(self.sources.packages(), place);
        rows_marked(self.plan.as_plan(), place, files, marks)
    }

    /// Whether the action of a package was taken under a number, and is not finished.
    pub fn is_taken(&self, place: usize, number: u64) -> bool
        ensures { IsTrue result → (input : InputModel) × (slice_get self.now.slots place ≡ Some (Taken number input)) }
    {
        match self.slots.get(place) {
            Some(slot) => is_taken_under(slot, number),
            None => false,
        }
    }

    /// Hands out an action that is ready, under a number. It takes no memory.
    pub fn hand_out(&mut self, place: usize, number: u64, input: PartInput)
        requires ready { IsReady self.old place }
        requires input { IsInputAt self.old.sources self.old.parts place input }
        ensures { self.new ≡ batch_with self.old.sources (slice_set self.old.slots place (Taken number input)) self.old.parts }
    {
        self.turns.take(place);
        self.slots[place] = Slot::Taken(number, input);
    }

    /// The package whose action was taken under a number with the input of a part, and is not finished, if there is one. It takes no memory.
    pub fn awaiting(&self, number: u64, part: &ReadPart) -> Option<usize>
        ensures { MatchOption result (IsForeign self.now number part.now) (λ place. Awaits self.now place number part.now) }
    {
        let input = part.get().input();
        let place = package_of(self.sources.packages(), input.path().as_str())?;
        if is_awaited(&self.slots[place], number, input) {
            Some(place)
        } else {
            None
        }
    }

    /// The same where each input that is awaited under the number is known to be the one of the part: no input is looked at.
    pub fn awaiting_known(&self, number: u64, part: &ReadPart) -> Option<usize>
        requires { IsKnown self.now number part.now.input }
        ensures { MatchOption result (IsForeign self.now number part.now) (λ place. Awaits self.now place number part.now) }
    {
        let input = part.get().input();
        let place = package_of(self.sources.packages(), input.path().as_str())?;
        if is_taken_under(&self.slots[place], number) {
            Some(place)
        } else {
            None
        }
    }

    /// The end of an action that was taken, by its part.
    ///
    /// # Errors
    ///
    /// `AllocError` where the part has too many owners.
    pub fn ending(&self, place: usize, part: &ReadPart) -> Result<Ending, AllocError>
        requires { (number : ℕ) × Awaits self.now place number part.now }
        ensures place { IfOk result (λ e. e.place ≡ place) }
        ensures part { IfOk result (λ e. e.part ≡ part.now) }
        ensures ends { IfOk result (IsEnding self.now) }
    {
        let part = part.get().share()?;
        let tell = Tell {
            place,
            part: part.share()?,
        };
        Ok(Ending { place, part, tell })
    }

    /// Ends an action that was taken. It takes no memory.
    pub fn finish(&mut self, ending: Ending)
        requires { IsEnding self.old ending }
        ensures slots { self.new ≡ with_part self.old ending.place ending.part }
        ensures left { actions_left self.new + 1 ≡ actions_left self.old }
    {
        inputs_stay();
        let Ending { place, part, tell } = ending;
        let _made = part.content();
        self.turns.finish(place);
        self.parts.put(place, part);
        push_tell(&mut self.untold, tell);
        self.slots[place] = Slot::Finished;
        self.left -= 1;
    }

    /// The snapshot of a batch without actions that are left.
    ///
    /// # Errors
    ///
    /// `AllocError` where memory is wanting.
    pub fn snapshot(&self, alloc: Global) -> Result<Snapshot, AllocError>
        requires { actions_left self.now ≡ 0 }
        ensures sources { IfOk result (λ s. s.sources ≡ self.now.sources) }
        ensures parts { IfOk result (λ s. s.parts ≡ self.now.parts) }
        ensures whole { IfOk result (λ s. IsSnapshot s.sources s.parts s.faults) }
    {
        parts_come_in_order();
        let parts = self.parts.copy(alloc)?;
        let sources = self.sources.copy(alloc)?;
        joined(alloc, sources, parts)
    }

    /// The snapshot of the batch with its last part.
    ///
    /// # Errors
    ///
    /// `AllocError` where memory is wanting.
    pub fn snapshot_with(
        &self,
        alloc: Global,
        place: usize,
        part: &ReadPart,
    ) -> Result<Snapshot, AllocError>
        requires awaits { (number : ℕ) × Awaits self.now place number part.now }
        requires last { actions_left self.now ≡ 1 }
        ensures sources { IfOk result (λ s. s.sources ≡ self.now.sources) }
        ensures parts { IfOk result (λ s. s.parts ≡ (with_part self.now place part.now).parts) }
        ensures whole { IfOk result (λ s. IsSnapshot s.sources s.parts s.faults) }
    {
        inputs_stay();
        parts_come_in_order();
        let _made = part.get().content();
        let last = part.get().share()?;
        let mut parts = self.parts.copy(alloc)?;
        parts.put(place, last);
        let sources = self.sources.copy(alloc)?;
        joined(alloc, sources, parts)
    }
}

// The snapshot of all parts of a workspace.
fn joined(alloc: Global, sources: Workspace, parts: Parts) -> Result<Snapshot, AllocError>
    requires { AreParts sources parts }
    ensures sources { IfOk result (λ s. s.sources ≡ sources) }
    ensures parts { IfOk result (λ s. s.parts ≡ parts) }
    ensures whole { IfOk result (λ s. IsSnapshot s.sources s.parts s.faults) }
{
    match join_parts(alloc, sources, parts) {
        Ok(snapshot) => {
            let _whole = snapshot.sources();
            Ok(snapshot)
        }
        Err(_) => Err(AllocError),
    }
}
