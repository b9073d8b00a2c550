//! What workers see: before one works, it is told what was told since it worked last.
ghost use Rattle.std.specs.Prelude.{◌≡◌, ◌∷◌, [], All, IfOk, map};
ghost use Rattle.go_batch_core.specs.seen.Sights.{AreWithReached};
ghost use Rattle.go_batch_core.specs.Telling.{IsToldOnce};
ghost use Rattle.go_parallel_core.specs.Seen.{Rests};
ghost use Rattle.go_parallel_core.specs.Told.{AreAllTold, AreTold, IsTold, summary_in};

use go_batch_core::seen::Sight;
use go_batch_core::{Batch, ReadPart};
use std::alloc::{AllocError, Global};

/// A worker at rest: what it sees, and of how many of the parts that are made it was told.
#[derive(Drop)]
pub(crate) struct Seer {
    pub(crate) sight: Sight,
    pub(crate) told: usize,
}

/// The parts that are made, in the order in which their actions were ended, and the workers that are at rest.
#[derive(Drop)]
pub(crate) struct Seers {
    pub(crate) made: Vec<ReadPart>,
    pub(crate) resting: Vec<Seer>,
}

// What is seen, with what a part tells.
fn told_of(batch: &Batch, sight: Sight, part: &ReadPart) -> Result<Sight, AllocError>
    requires once { IsToldOnce batch.now }
    requires told { IsTold batch.now.parts (summary_in part.now) }
    requires seen { AreTold batch.now.parts sight }
    ensures { IfOk result (AreWithReached sight (summary_in part.now ∷ [])) }
{
    let _ = batch;
    let more = sight.with_told(part.get().summary())?;
    Ok(more)
}

// What is seen, with what parts tell.
fn told_all(batch: &Batch, sight: Sight, parts: &[ReadPart]) -> Result<Sight, AllocError>
    requires once { IsToldOnce batch.now }
    requires told { AreTold batch.now.parts (map summary_in parts.now) }
    requires seen { AreTold batch.now.parts sight }
    ensures { IfOk result (AreWithReached sight (map summary_in parts.now)) }
{
    let mut seen = sight;
    for part in parts {
        seen = told_of(batch, seen, part)?;
    }
    Ok(seen)
}

// What a worker sees as it begins: all that is told.
fn awake(batch: &Batch, made: &[ReadPart], seer: Seer) -> Result<Sight, AllocError>
    requires once { IsToldOnce batch.now }
    requires made { AreAllTold batch.now.parts (map summary_in made.now) }
    requires rests { Rests batch.now.parts made.now [] seer }
    ensures { IfOk result (AreAllTold batch.now.parts) }
{
    let Seer { sight, told } = seer;
    let all = told_all(batch, sight, &made[told..])?;
    Ok(all)
}

// A worker at rest, or one that sees nothing yet.
fn next_seer(
    alloc: Global,
    batch: &Batch,
    made: &[ReadPart],
    resting: &mut Vec<Seer>,
) -> Result<Seer, AllocError>
    requires { All (Rests batch.now.parts made.now []) resting.old.items }
    ensures next { IfOk result (Rests batch.now.parts made.now []) }
    ensures left { All (Rests batch.now.parts made.now []) resting.new.items }
{
    let _ = batch;
    let _ = made;
    match resting.pop() {
        Some(seer) => Ok(seer),
        None => {
            let nothing = Sight::none(alloc)?;
            Ok(Seer {
                sight: nothing,
                told: 0,
            })
        }
    }
}

/// What a worker sees as it begins: all that is told.
///
/// # Errors
///
/// `AllocError` where memory is wanting.
pub(crate) fn next_sight(
    alloc: Global,
    batch: &Batch,
    made: &[ReadPart],
    resting: &mut Vec<Seer>,
) -> Result<Sight, AllocError>
    requires once { IsToldOnce batch.now }
    requires made { AreAllTold batch.now.parts (map summary_in made.now) }
    requires rests { All (Rests batch.now.parts made.now []) resting.old.items }
    ensures next { IfOk result (AreAllTold batch.now.parts) }
    ensures left { All (Rests batch.now.parts made.now []) resting.new.items }
{
    let seer = next_seer(alloc, batch, made, resting)?;
    let sight = awake(batch, made, seer)?;
    Ok(sight)
}
