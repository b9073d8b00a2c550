//! Shares of the packages of a level: each is compiled by a thread, the last one by the thread that asks.
ghost use Rattle.std.specs.Prelude.{◌≡◌, [], All, IfOk, OnOk, flat_map, map};
ghost use Rattle.go_batch_core.specs.Telling.{IsToldOnce};
ghost use Rattle.go_parallel_core.specs.Seen.{CanCompile, IsBeside, IsDoneOf, Rests};
ghost use Rattle.go_parallel_core.specs.Told.{AreAllTold, AreHeld, input_of, summary_in};
ghost use Rattle.go_parallel_core.specs.Works.{IsWorkIn, inputs_of, items_of};

use crate::seers::{Seer, next_sight};
use crate::worker::{Done, compile_share};
use go_batch_core::seen::Sight;
use go_batch_core::{Batch, ReadInput, ReadPart};
use std::alloc::{AllocError, Global};
use std::snapshot::Snapshot;
use std::thread;
use std::thread::{Promise, PromisedHandle, Threads};

/// The fewest bytes of source that are worth a thread of their own.
const LEAST_SHARE: usize = 4_096;

/// The inputs that are given to a thread, and what it sees. It promises their parts, and that it sees after them what it saw and what they tell.
#[derive(Drop)]
pub(crate) struct Given {
    sight: Snapshot<Sight>,
    inputs: Snapshot<Vec<ReadInput>>,
}

impl Promise<Result<Done, AllocError>> for Given {
    ghost use Rattle.std.specs.Prelude.{IfOk};
    ghost use Rattle.go_parallel_core.specs.Seen.{IsDoneOf};

    ghost kept_by = { λ p r. IfOk r (λ d. IsDoneOf p.sight.value p.inputs.value.items d.parts.items d.sight) };
}

/// A share.
#[derive(Drop)]
pub(crate) enum Work {
    /// A thread compiles it.
    Begun(PromisedHandle<Result<Done, AllocError>, Given>),
    /// It is compiled.
    Ended(Done),
}

// How many bytes of source the package of an input has; the largest number where there are more.
fn bytes_of(input: &ReadInput) -> usize {
    let mut bytes: usize = 0;
    for file in input.get().package().files() {
        bytes = bytes.saturating_add(file.text().len());
    }
    bytes
}

/// About how many bytes of source a share has, where so many workers share these inputs: `LEAST_SHARE` at least.
pub(crate) fn share_of(inputs: &[ReadInput], workers: usize) -> usize {
    let mut bytes: usize = workers.saturating_sub(1);
    for input in inputs {
        bytes = bytes.saturating_add(bytes_of(input));
    }
    let share = bytes.checked_div(workers).unwrap_or(bytes);
    share.max(LEAST_SHARE)
}

// Whether a share ends after an input of `last` bytes, with which there are `bytes` since the first share began. It ends where it comes to `end`, or within
// half an input of that. Where no more shares may be begun it goes on.
fn is_end(more: usize, bytes: usize, last: usize, end: usize) -> bool {
    if more == 0 {
        return false;
    }
    bytes.saturating_add(last / 2) >= end
}

// What a thread promises the parts of.
fn given_for(sight: &Sight, inputs: &Vec<ReadInput>) -> Given
    ensures sight { result.sight.value ≡ sight.now }
    ensures inputs { result.inputs.value ≡ inputs.now }
{
    Given {
        sight: Snapshot::of(sight),
        inputs: Snapshot::of(inputs),
    }
}

// Begins to compile a share. Where no thread can be made, this one compiles it.
fn begin(
    rt: &impl Threads,
    alloc: Global,
    batch: &Batch,
    inputs: Vec<ReadInput>,
    sight: Sight,
) -> Result<Work, AllocError>
    requires told { AreAllTold batch.now.parts sight }
    requires can { CanCompile sight inputs.items }
    ensures inputs { IfOk result (λ w. inputs_of w ≡ inputs.items) }
    ensures sound { IfOk result (IsWorkIn batch.now.parts) }
{
    let _ = batch;
    let given = given_for(&sight, &inputs);
    let compiling = move || -> Result<Done, AllocError>
        requires { CanCompile sight inputs.items }
        ensures { IfOk result (λ d. IsDoneOf sight inputs.items d.parts.items d.sight) }
    { compile_share(alloc, inputs, sight) };
    match thread::spawn_with(rt, given, compiling) {
        Ok(begun) => Ok(Work::Begun(begun)),
        Err(refused) => {
            let done = (refused.value)()?;
            Ok(Work::Ended(done))
        }
    }
}

// Compiles a share.
fn compile_here(
    alloc: Global,
    batch: &Batch,
    inputs: Vec<ReadInput>,
    sight: Sight,
) -> Result<Work, AllocError>
    requires told { AreAllTold batch.now.parts sight }
    requires can { CanCompile sight inputs.items }
    ensures inputs { IfOk result (λ w. inputs_of w ≡ inputs.items) }
    ensures sound { IfOk result (IsWorkIn batch.now.parts) }
{
    let _ = batch;
    let done = compile_share(alloc, inputs, sight)?;
    Ok(Work::Ended(done))
}

// Compiles a share: the last one at once, and each other in a thread.
fn work_on(
    rt: &impl Threads,
    alloc: Global,
    batch: &Batch,
    inputs: Vec<ReadInput>,
    sight: Sight,
    is_last: bool,
) -> Result<Work, AllocError>
    requires told { AreAllTold batch.now.parts sight }
    requires can { CanCompile sight inputs.items }
    ensures inputs { IfOk result (λ w. inputs_of w ≡ inputs.items) }
    ensures sound { IfOk result (IsWorkIn batch.now.parts) }
{
    if is_last {
        let work = compile_here(alloc, batch, inputs, sight)?;
        return Ok(work);
    }
    let work = begin(rt, alloc, batch, inputs, sight)?;
    Ok(work)
}

/// Cuts inputs, in order, into `workers` shares at most, of about `share` bytes of source each.
///
/// # Errors
///
/// `AllocError` where memory is wanting.
pub(crate) fn shares_of(
    alloc: Global,
    inputs: Vec<ReadInput>,
    share: usize,
    workers: usize,
) -> Result<Vec<Vec<ReadInput>>, AllocError>
    ensures { IfOk result (λ v. flat_map items_of v.items ≡ inputs.items) }
{
    let mut shares = Vec::new(alloc);
    let mut next = Vec::new(alloc);
    let mut more = workers.saturating_sub(1);
    let mut end = share;
    let mut bytes: usize = 0;
    for input in inputs {
        let last = bytes_of(&input);
        bytes = bytes.saturating_add(last);
        next.push(input)?;
        if is_end(more, bytes, last, end) {
            shares.push(next)?;
            next = Vec::new(alloc);
            end = end.saturating_add(share);
            more = more.saturating_sub(1);
        }
    }
    if next.is_empty() {
        return Ok(shares);
    }
    shares.push(next)?;
    Ok(shares)
}

/// Begins to compile shares of inputs that rest on what is told. Each is compiled by a worker that is told all of it first, the last one by this thread.
///
/// # Errors
///
/// `AllocError` where memory is wanting.
pub(crate) fn begin_all(
    rt: &impl Threads,
    alloc: Global,
    batch: &Batch,
    shares: Vec<Vec<ReadInput>>,
    made: &[ReadPart],
    resting: &mut Vec<Seer>,
) -> Result<Vec<Work>, AllocError>
    requires once { IsToldOnce batch.now }
    requires held { AreHeld batch.now.parts (flat_map items_of shares.items) }
    requires made { AreAllTold batch.now.parts (map summary_in made.now) }
    requires rests { All (Rests batch.now.parts made.now []) resting.old.items }
    ensures inputs { IfOk result (λ v. flat_map inputs_of v.items ≡ flat_map items_of shares.items) }
    ensures sound { IfOk result (λ v. All (IsWorkIn batch.now.parts) v.items) }
    ensures rests { OnOk result (All (Rests batch.now.parts made.now []) resting.new.items) }
{
    let mut works = Vec::new(alloc);
    let mut left = shares.len();
    for inputs in shares {
        left = left.saturating_sub(1);
        let sight = next_sight(alloc, batch, made, resting)?;
        let work = work_on(rt, alloc, batch, inputs, sight, left == 0)?;
        works.push(work)?;
    }
    Ok(works)
}

// The parts of a share, once its thread has ended, and what that sees.
fn end(rt: &impl Threads, batch: &Batch, work: Work) -> Result<Done, AllocError>
    requires { IsWorkIn batch.now.parts work }
    ensures parts { IfOk result (λ d. map input_of d.parts.items ≡ inputs_of work) }
    ensures sight { IfOk result (λ d. IsBeside batch.now.parts (map summary_in d.parts.items) d.sight) }
{
    let _ = batch;
    match work {
        Work::Begun(begun) => begun.join(rt),
        Work::Ended(done) => Ok(done),
    }
}

/// The parts of shares, in order, once all of their threads have ended. Their workers are at rest then.
///
/// # Errors
///
/// `AllocError` where memory is wanting, here or in a thread.
pub(crate) fn end_all(
    rt: &impl Threads,
    alloc: Global,
    batch: &Batch,
    works: Vec<Work>,
    made: &[ReadPart],
    resting: &mut Vec<Seer>,
) -> Result<Vec<ReadPart>, AllocError>
    requires sound { All (IsWorkIn batch.now.parts) works.items }
    requires made { AreAllTold batch.now.parts (map summary_in made.now) }
    requires rests { All (Rests batch.now.parts made.now []) resting.old.items }
    ensures parts { IfOk result (λ v. map input_of v.items ≡ flat_map inputs_of works.items) }
    ensures rests { IfOk result (λ v. All (Rests batch.now.parts made.now (map summary_in v.items)) resting.new.items) }
{
    let mut all = Vec::new(alloc);
    let told = made.len();
    for work in works {
        let done = end(rt, batch, work)?;
        let Done { mut parts, sight } = done;
        all.append(&mut parts)?;
        resting.push(Seer { sight, told })?;
    }
    Ok(all)
}
