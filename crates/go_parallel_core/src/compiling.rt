//! The snapshot of a workspace whose packages are compiled at once.
ghost use Rattle.std.specs.Prelude.{◌≡◌, [], IfOk, OnOk};
ghost use Rattle.go_snap_core.specs.Snapshots.{IsSnapshot};
ghost use Rattle.go_batch_core.specs.Batches.{actions_left};
ghost use Rattle.go_parallel_core.specs.Handed.{AreTaken};
ghost use Rattle.go_parallel_core.specs.Seen.{AreSeers};
ghost use Rattle.go_parallel_core.specs.Told.{AreAllTold, AreHeld};

use crate::levels::{Level, finish_all, hand_out_ready};
use crate::seers::Seers;
use crate::shares::{begin_all, end_all, share_of, shares_of};
use go_batch_core::{Batch, Planned};
use go_block_core::graph_core::Workspace;
use go_snap_core::{Snapshot, compile};
use std::alloc::{AllocError, Global};
use std::thread::Threads;

// Compiles the packages of a level, and ends their actions.
fn compile_level(
    rt: &impl Threads,
    alloc: Global,
    batch: &mut Batch,
    level: Level,
    workers: usize,
    seers: Seers,
) -> Result<Seers, AllocError>
    requires taken { AreTaken batch.old.slots level.places.items level.inputs.items }
    requires held { AreHeld batch.old.parts level.inputs.items }
    requires seers { AreSeers batch.old.parts seers }
    ensures sources { OnOk result (batch.new.sources ≡ batch.old.sources) }
    ensures seers { IfOk result (AreSeers batch.new.parts) }
{
    batch.is_told_once();
    let Level { places, inputs } = level;
    let Seers {
        mut made,
        mut resting,
    } = seers;
    let share = share_of(&inputs, workers);
    let shares = shares_of(alloc, inputs, share, workers)?;
    let works = begin_all(rt, alloc, &*batch, shares, &made, &mut resting)?;
    let mut parts = end_all(rt, alloc, &*batch, works, &made, &mut resting)?;
    finish_all(batch, &places, &parts)?;
    made.append(&mut parts)?;
    Ok(Seers { made, resting })
}

// Compiles the packages of a batch in which nothing is told yet, one level after another, until none is ready.
fn compile_levels(
    rt: &impl Threads,
    alloc: Global,
    batch: &mut Batch,
    workers: usize,
) -> Result<(), AllocError>
    requires { AreAllTold batch.old.parts [] }
    ensures { OnOk result (batch.new.sources ≡ batch.old.sources) }
{
    let mut seers = Seers {
        made: Vec::new(alloc),
        resting: Vec::new(alloc),
    };
    for _level in 0..batch.left() {
        let level = hand_out_ready(alloc, batch)?;
        if level.places.is_empty() {
            break;
        }
        seers = compile_level(rt, alloc, batch, level, workers, seers)?;
    }
    Ok(())
}

// The snapshot of a batch of a workspace without actions that are left.
fn snapshot_of(alloc: Global, workspace: &Workspace, batch: &Batch) -> Result<Snapshot, AllocError>
    requires sources { batch.now.sources ≡ workspace.now }
    requires none { actions_left batch.now ≡ 0 }
    ensures sources { IfOk result (λ s. s.sources ≡ workspace.now) }
    ensures whole { IfOk result (λ s. IsSnapshot workspace.now s.parts s.faults) }
{
    let _ = workspace;
    let snapshot = batch.snapshot(alloc)?;
    Ok(snapshot)
}

/// The snapshot of a workspace, as `compile` of `go_snap_core` gives it. It is the same for every number of workers. Each assembled package is compiled once,
/// after those that it imports.
///
/// A package is ready where all that it imports is compiled. All packages that are ready at one time are a level. A level is cut by bytes of source, in order,
/// into `workers` shares at most, of 4,096 bytes and more. A thread compiles each share; this thread compiles the last one, and each for which no thread can be
/// made. With fewer than two workers no thread is begun, nor for a level of one share.
///
/// The Go specification, "Packages", "Import declarations".
///
/// # Errors
///
/// `AllocError` where memory is wanting, here or in a thread.
pub fn compile_at_once(
    rt: &impl Threads,
    alloc: Global,
    workspace: &Workspace,
    workers: usize,
) -> Result<Snapshot, AllocError>
    ensures sources { IfOk result (λ s. s.sources ≡ workspace.now) }
    ensures whole { IfOk result (λ s. IsSnapshot workspace.now s.parts s.faults) }
{
    if workers < 2 {
        return compile(alloc, workspace);
    }
    let sources = workspace.copy(alloc)?;
    let planned = Planned::of(alloc, &sources)?;
    let mut batch = Batch::begin(alloc, sources, planned)?;
    compile_levels(rt, alloc, &mut batch, workers)?;
    if batch.left() == 0 {
        let snapshot = snapshot_of(alloc, workspace, &batch)?;
        return Ok(snapshot);
    }
    // While a package is left one is ready.
    compile(alloc, workspace)
}
