//! A level: all packages of a batch that are ready at once.
ghost use Rattle.std.specs.Prelude.{◌≡◌, ◌∷◌, [], IfOk, OnOk, Some, map, slice_get, slice_set};
ghost use Rattle.go_batch_core.specs.Batches.{IsReady, batch_with, with_part};
ghost use Rattle.go_batch_core.specs.declared.slot.Slot.TheVariants.{Taken};
ghost use Rattle.go_parallel_core.specs.Handed.{AreTaken};
ghost use Rattle.go_parallel_core.specs.Told.{AreHeld, IsHeld, TellsMore, input_of, summary_in};

use go_batch_core::{Batch, Next, ReadInput, ReadPart};
use std::alloc::{AllocError, Global};

/// The packages of a level: the numbers of packages, and for each its input.
#[derive(Drop)]
pub(crate) struct Level {
    pub(crate) places: Vec<usize>,
    pub(crate) inputs: Vec<ReadInput>,
}

// Hands out an action that is ready.
fn hand_out(alloc: Global, batch: &mut Batch, place: usize) -> Result<ReadInput, AllocError>
    requires { IsReady batch.old place }
    ensures handed { IfOk result (λ i. batch.new ≡ batch_with batch.old.sources (slice_set batch.old.slots place (Taken 0 i)) batch.old.parts) }
    ensures numbered { IfOk result (λ i. slice_get batch.old.sources place ≡ Some i.source) }
    ensures held { IfOk result (IsHeld batch.old.parts) }
{
    let next = batch.next_at(alloc, place)?;
    let Next {
        place: _,
        input,
        awaited,
    } = next;
    batch.hand_out(place, 0, awaited);
    batch.is_told_once();
    Ok(input)
}

/// Hands out all actions that are ready, over what is told by all packages that are finished.
///
/// # Errors
///
/// `AllocError` where memory is wanting.
pub(crate) fn hand_out_ready(alloc: Global, batch: &mut Batch) -> Result<Level, AllocError>
    ensures sources { OnOk result (batch.new.sources ≡ batch.old.sources) }
    ensures parts { OnOk result (batch.new.parts ≡ batch.old.parts) }
    ensures taken { IfOk result (λ l. AreTaken batch.new.slots l.places.items l.inputs.items) }
    ensures held { IfOk result (λ l. AreHeld batch.new.parts l.inputs.items) }
{
    batch.tell()?;
    // Its packages stand in order of path.
    let _packages = batch.sources().packages();
    let mut places = Vec::new(alloc);
    let mut inputs = Vec::new(alloc);
    for _action in 0..batch.left() {
        let Some(place) = batch.ready() else {
            break;
        };
        let input = hand_out(alloc, batch, place)?;
        places.push(place)?;
        inputs.push(input)?;
    }
    Ok(Level { places, inputs })
}

// Ends the action of a package by its part.
fn finish(batch: &mut Batch, place: usize, part: &ReadPart) -> Result<(), AllocError>
    requires { slice_get batch.old.slots place ≡ Some (Taken 0 part.now.input) }
    ensures finished { OnOk result (batch.new ≡ with_part batch.old place part.now) }
    ensures tells { OnOk result (TellsMore batch.old.parts (summary_in part.now ∷ []) batch.new.parts) }
{
    batch.is_told_once();
    let ending = batch.ending(place, part)?;
    batch.finish(ending);
    Ok(())
}

/// Ends the actions of packages that were handed out, by their parts.
///
/// # Errors
///
/// `AllocError` where a part has too many owners.
pub(crate) fn finish_all(
    batch: &mut Batch,
    places: &[usize],
    parts: &[ReadPart],
) -> Result<(), AllocError>
    requires { AreTaken batch.old.slots places.now (map input_of parts.now) }
    ensures sources { OnOk result (batch.new.sources ≡ batch.old.sources) }
    ensures tells { OnOk result (TellsMore batch.old.parts (map summary_in parts.now) batch.new.parts) }
{
    for (place, part) in places.iter().zip(parts) {
        finish(batch, *place, part)?;
    }
    Ok(())
}
