//! What of the last snapshot is as it was in the batch that runs.
ghost use Rattle.std.specs.Prelude.{◌≡◌, ◌↔◌, Contains, IfOk, IfSome, IsTrue, MatchOption, Some, false, length, replicate, slice_get, slice_set, true};
ghost use Rattle.go_block_core.specs.graph_core.Workspaces.{AreAllRead};
ghost use Rattle.go_package_core.specs.package_part.Inputs.{IsInput};
ghost use Rattle.go_package_core.specs.package_part.Parts.{PartModel};
ghost use Rattle.go_snap_core.specs.whole_workspace.Inputs.{Tells};
ghost use Rattle.go_snap_core.specs.Staying.{StaysWhere};
ghost use Rattle.go_batch_core.specs.Batches.{Awaits, IsReady};
ghost use Rattle.go_batch_core.specs.Steadiness.{AreAgain, IsRetold, IsRetoldOf, IsSteady, ReachesNoneIf, StandsAt, StaysAt, WasAt, is_moved, is_retyped};
ghost use Rattle.go_batch_core.specs.mirrors.Moves.{AreCounted};

use crate::batch::Batch;
use crate::marks::{is_marked, set_mark};
use crate::read::ReadPart;
use crate::retold::Retold;
use go_locality_laws::{inputs_stand_over, parts_stay};
use go_package_core::package_part::{Part, one_part};
use go_snap_core::Snapshot;
use go_summary_core::Summary;
use go_summary_core::alike::same_types;
use std::alloc::{AllocError, Global};
use std::marker::Model;

// The marks of packages that tell something else, and whether there is any.
#[derive(Drop)]
struct Moves {
    marks: Vec<bool>,
    any: bool,
}

/// Of each package of the batch that runs, by its number, what is known of it beside the last snapshot: whether it is the package of that number there,
/// its imports come to the same, and it reaches the same numbers; whether it is finished and tells something else than there, and whether it tells other
/// types; and whether its action was handed out with the input of its earlier part, or with that part over another input. Contracts see the five lists of
/// marks.
pub struct Steady {
    same: Vec<bool>,
    moved: Moves,
    retyped: Moves,
    kept: Vec<bool>,
    stood: Vec<bool>,
}

impl Drop for Steady {
    fn drop(self) {
        let Steady {
            same: _,
            moved: _,
            retyped: _,
            kept: _,
            stood: _,
        } = self;
    }
}

impl Model for Steady {
    ghost use Rattle.go_batch_core.specs.Steadiness.{SteadyModel, steady_with};
    ghost use Rattle.go_batch_core.specs.mirrors.Moves.{AreCounted};

    ghost Value = { SteadyModel };

    ghost view = { λ s. steady_with s.same.items s.moved.marks.items s.retyped.marks.items s.kept.items s.stood.items };

    ghost invariant = { λ s. AreCounted s.moved.marks.items s.moved.any × AreCounted s.retyped.marks.items s.retyped.any };
}

// Marks a package, or takes its mark, where there is one of its number.
fn set_move(moves: &mut Moves, place: usize, mark: bool)
    requires { AreCounted moves.old.marks.items moves.old.any }
    ensures marks { moves.new.marks.items ≡ slice_set moves.old.marks.items place mark }
    ensures counted { AreCounted moves.new.marks.items moves.new.any }
{
    if mark {
        moves.any = true;
    }
    set_mark(&mut moves.marks, place, mark);
}

// Whether any package is marked.
fn has_any(moves: &Moves) -> bool
    requires { AreCounted moves.now.marks.items moves.now.any }
    ensures { IsTrue result ↔ Contains moves.now.marks.items true }
{
    moves.any && moves.marks.contains(&true)
}

// The part of a number, if there is one.
fn part_at(parts: &[Option<Part>], number: usize) -> Option<&Part>
    ensures { MatchOption result ((p : PartModel) → WasAt parts.now number p → ⊥) (λ p. WasAt parts.now number p.now) }
{
    match parts.get(number) {
        Some(Some(part)) => Some(part),
        Some(None) => None,
        None => None,
    }
}

// The part of a number in a snapshot, if there is one. The files of its package are as they are read.
fn earlier_at(snapshot: &Snapshot, number: usize) -> Option<&Part>
    ensures was { IfSome result (λ p. WasAt snapshot.now.parts number p.now) }
    ensures read { IfSome result (λ p. AreAllRead p.now.input.source) }
{
    // Its parts are those of its packages.
    let _packages = snapshot.sources().packages();
    part_at(snapshot.parts(), number)
}

// Whether the package of a number reaches none that is marked.
fn reaches_none_of(
    alloc: Global,
    batch: &Batch,
    place: usize,
    moves: &Moves,
) -> Result<bool, AllocError>
    requires { AreCounted moves.now.marks.items moves.now.any }
    ensures { IfOk result (λ is. ReachesNoneIf is batch.now.sources place moves.now.marks.items) }
{
    if !moves.any {
        return Ok(true);
    }
    let reaches = batch.reaches_marked(alloc, place, &moves.marks)?;
    Ok(!reaches)
}

// What a summary tells beside an earlier one.
fn retold_of(earlier: &Summary, summary: &Summary) -> Retold
    ensures { IsRetoldOf result earlier.now summary.now }
{
    if summary.is_same(earlier) {
        Retold::Same
    } else if same_types(summary.types(), earlier.types()) {
        Retold::SameTypes
    } else {
        Retold::OtherTypes
    }
}

// What a part tells beside an earlier one.
fn retold_by(earlier: &Part, part: &Part) -> Retold
    ensures { IsRetoldOf result earlier.now.content.summary part.now.content.summary }
{
    retold_of(earlier.summary(), part.summary())
}

// A part is made of an input.
fn is_input(part: &Part)
    ensures { IsInput part.now.input }
{
    let _reached = part.input().reached();
}

impl Steady {
    /// The marks of a batch of which nothing is taken: these say which packages are as they were in the last snapshot.
    ///
    /// # Errors
    ///
    /// `AllocError` where memory is wanting.
    pub(crate) fn new(alloc: Global, same: Vec<bool>) -> Result<Steady, AllocError>
        ensures same { IfOk result (λ s. s.same ≡ same.items) }
        ensures moved { IfOk result (λ s. s.moved ≡ replicate (length same.items) false) }
        ensures retyped { IfOk result (λ s. s.retyped ≡ replicate (length same.items) false) }
        ensures kept { IfOk result (λ s. s.kept ≡ replicate (length same.items) false) }
        ensures stood { IfOk result (λ s. s.stood ≡ replicate (length same.items) false) }
    {
        let marks = vec![in alloc; false; same.len()]?;
        let kept = vec![in alloc; false; same.len()]?;
        let moved = Moves { marks, any: false };
        let types = vec![in alloc; false; same.len()]?;
        let stood = vec![in alloc; false; same.len()]?;
        let retyped = Moves {
            marks: types,
            any: false,
        };
        Ok(Steady {
            same,
            moved,
            retyped,
            kept,
            stood,
        })
    }

    // Whether the package of a number reaches none that tells something else.
    fn reaches_none(&self, alloc: Global, batch: &Batch, place: usize) -> Result<bool, AllocError>
        ensures { IfOk result (λ is. ReachesNoneIf is batch.now.sources place self.now.moved) }
    {
        reaches_none_of(alloc, batch, place, &self.moved)
    }

    /// The earlier part of a package whose action is ready, where it stands over the input that the batch gives the package: where the package is the one of
    /// then, each that its imports come to tells what it told then, and each that it reaches tells the types that it told. Nothing is compared. The time is
    /// linear in its imports, and where a package tells other types in what this one reaches.
    ///
    /// # Errors
    ///
    /// `AllocError` where memory is wanting.
    pub fn standing_at<'a>(
        &self,
        alloc: Global,
        batch: &Batch,
        snapshot: &'a Snapshot,
        place: usize,
    ) -> Result<Option<&'a Part>, AllocError>
        requires steady { IsSteady snapshot.now batch.now self.now }
        requires ready { IsReady batch.now place }
        ensures stands { IfOk result (λ o. IfSome o (λ p. StandsAt snapshot.now batch.now place p.now)) }
        // The files of its package are as they are read.
        ensures read { IfOk result (λ o. IfSome o (λ p. AreAllRead p.now.input.source)) }
    {
        if !self.is_same(place) {
            return Ok(None);
        }
        if batch.imports_marked(place, &self.moved.marks) {
            return Ok(None);
        }
        let stands = reaches_none_of(alloc, batch, place, &self.retyped)?;
        if !stands {
            return Ok(None);
        }
        // The parts of both are those of their packages, each made of its input.
        parts_stay();
        inputs_stand_over();
        let _sources = snapshot.sources();
        let _packages = snapshot.sources().packages();
        batch.has_right_parts();
        batch.has_reached(place);
        match earlier_at(snapshot, place) {
            Some(part) => {
                is_input(part);
                Ok(Some(part))
            }
            None => Ok(None),
        }
    }

    /// The earlier part of a package whose action is ready, where its input is the one that the batch gives the package: where the package is the one of
    /// then, and each that it reaches tells what it told then. Nothing is compared. The time is none but where a package tells something else: then
    /// it is linear in what this one reaches.
    ///
    /// # Errors
    ///
    /// `AllocError` where memory is wanting.
    pub fn part_at<'a>(
        &self,
        alloc: Global,
        batch: &Batch,
        snapshot: &'a Snapshot,
        place: usize,
    ) -> Result<Option<&'a Part>, AllocError>
        requires steady { IsSteady snapshot.now batch.now self.now }
        requires ready { IsReady batch.now place }
        ensures stays { IfOk result (λ o. IfSome o (λ p. StaysAt snapshot.now batch.now place p.now)) }
        // The files of its package are as they are read.
        ensures read { IfOk result (λ o. IfSome o (λ p. AreAllRead p.now.input.source)) }
    {
        if !is_marked(&self.same, place) {
            return Ok(None);
        }
        let stays = self.reaches_none(alloc, batch, place)?;
        if !stays {
            return Ok(None);
        }
        // Its parts are those of its packages, and what is reached is finished.
        let _sources = snapshot.sources();
        batch.has_reached(place);
        Ok(earlier_at(snapshot, place))
    }

    /// The earlier part of a package whose action was taken under a number, where that was handed out with the part's input.
    pub fn kept_at<'a>(
        &self,
        batch: &Batch,
        snapshot: &'a Snapshot,
        place: usize,
        number: u64,
    ) -> Option<&'a Part>
        requires { IsSteady snapshot.now batch.now self.now }
        ensures was { IfSome result (λ p. WasAt snapshot.now.parts place p.now) }
        ensures awaits { IfSome result (λ p. Awaits batch.now place number p.now) }
        // The files of its package are as they are read.
        ensures read { IfSome result (λ p. AreAllRead p.now.input.source) }
    {
        if is_marked(&self.kept, place) && batch.is_taken(place, number) {
            earlier_at(snapshot, place)
        } else {
            None
        }
    }

    /// Whether the package of a number is the one of that number in the last snapshot, its imports come to the same, and it reaches the same numbers.
    pub fn is_same(&self, place: usize) -> bool
        ensures { IsTrue result ↔ (slice_get self.now.same place ≡ Some true) }
    {
        is_marked(&self.same, place)
    }

    /// Whether a package is finished that tells something else than in the last snapshot.
    pub fn has_moved(&self) -> bool
        ensures { IsTrue result ↔ Contains self.now.moved true }
    {
        has_any(&self.moved)
    }

    /// Whether the action of a package that a part ends was handed out with its earlier part over another input, so that the part tells what this one told.
    pub fn has_stood(
        &self,
        batch: &Batch,
        snapshot: &Snapshot,
        place: usize,
        number: u64,
        part: &ReadPart,
    ) -> bool
        requires steady { IsSteady snapshot.now batch.now self.now }
        requires awaits { Awaits batch.now place number part.now }
        ensures { IsTrue result → Tells snapshot.now.parts place part.now.content.summary }
    {
        // The number is what the action is known by. There is one part of an input, and the snapshot's parts are those of its packages.
        let (_, _) = (batch, number);
        one_part();
        let _made = part.get().content();
        let _sources = snapshot.sources();
        let _packages = snapshot.sources().packages();
        is_marked(&self.stood, place)
    }

    /// What a part tells beside what the part of a number in the last snapshot tells. The time is linear in what the two tell.
    pub fn retold(snapshot: &Snapshot, place: usize, part: &ReadPart) -> Retold
        ensures { IsRetold result snapshot.now.parts place part.now }
    {
        match part_at(snapshot.parts(), place) {
            Some(earlier) => retold_by(earlier, part.get()),
            None => Retold::OtherTypes,
        }
    }

    /// The marks of the packages that a batch leaves as they were in the last snapshot, with the same part, by the snapshot that it ended with: those whose
    /// actions were handed out with the input of the earlier part. Nothing is compared.
    pub fn left(&self, snapshot: &Snapshot, current: &Snapshot) -> &[bool]
        requires { AreAgain snapshot.now current.now.sources current.now.parts self.now.kept }
        ensures { StaysWhere snapshot.now current.now result.now }
    {
        // There is one part of an input, and the parts of both are those of their packages.
        one_part();
        let _earlier = snapshot.sources();
        let _packages = current.sources().packages();
        &self.kept
    }

    /// Marks a package whose action is handed out: whether with the input of its earlier part, and whether with that part over another input.
    pub fn hand_out(&mut self, place: usize, kept: bool, stood: bool)
        ensures same { self.new.same ≡ self.old.same }
        ensures moved { self.new.moved ≡ self.old.moved }
        ensures retyped { self.new.retyped ≡ self.old.retyped }
        ensures kept { self.new.kept ≡ slice_set self.old.kept place kept }
        ensures stood { self.new.stood ≡ slice_set self.old.stood place stood }
    {
        set_mark(&mut self.kept, place, kept);
        set_mark(&mut self.stood, place, stood);
    }

    /// Marks a package whose action is finished by what it tells beside what it told in the last snapshot.
    pub fn finish(&mut self, place: usize, retold: Retold)
        ensures same { self.new.same ≡ self.old.same }
        ensures moved { self.new.moved ≡ slice_set self.old.moved place (is_moved retold) }
        ensures retyped { self.new.retyped ≡ slice_set self.old.retyped place (is_retyped retold) }
        ensures kept { self.new.kept ≡ self.old.kept }
        ensures stood { self.new.stood ≡ self.old.stood }
    {
        set_move(&mut self.moved, place, retold.is_moved());
        set_move(&mut self.retyped, place, retold.is_retyped());
    }
}
