//! The slots of a batch that begins.
ghost use Rattle.std.specs.Prelude.{◌≡◌, ◌<◌, ℕ, All, IfOk, Contains, Some, length, map, replicate, slice_get};
ghost use Rattle.go_batch_core.specs.declared.slot.Slot.{Slot};
ghost use Rattle.go_batch_core.specs.declared.slot.Slot.TheVariants.{NoAction, Untaken};
ghost use Rattle.go_batch_core.specs.Batches.{unfinished};
ghost use Rattle.go_batch_core.specs.mirrors.Keeping.{mark_of};

use crate::slot::Slot;
use go_digraph_core::ready_queue::Mark;
use go_path_core::text_core::add;
use std::alloc::{AllocError, Global};

// Slots without an action.
fn empty_slots(alloc: Global, count: usize) -> Result<Vec<Slot>, AllocError>
    ensures { IfOk result (λ slots. slots.items ≡ replicate count NoAction) }
{
    let mut slots = Vec::with_capacity(alloc, count)?;
    for _package in 0..count {
        slots.push(Slot::NoAction)?;
    }
    Ok(slots)
}

/// A slot for each package: those of the order have an action.
pub(crate) fn slots_of(
    alloc: Global,
    count: usize,
    order: &[usize],
) -> Result<Vec<Slot>, AllocError>
    requires { All (λ (n : ℕ). n < count) order.now }
    ensures many { IfOk result (λ slots. length slots.items ≡ count) }
    ensures ordered { IfOk result (λ slots. (n : ℕ) → Contains order.now n → slice_get slots.items n ≡ Some Untaken) }
    ensures others { IfOk result (λ slots. (n : ℕ) (s : Slot) → slice_get slots.items n ≡ Some s → (Contains order.now n → ⊥) → s ≡ NoAction) }
{
    let mut slots = empty_slots(alloc, count)?;
    for number in order {
        slots[*number] = Slot::Untaken;
    }
    Ok(slots)
}

/// What is done with the packages.
pub(crate) fn marks_of(alloc: Global, slots: &[Slot]) -> Result<Vec<Mark>, AllocError>
    ensures { IfOk result (λ marks. marks.items ≡ map mark_of slots.now) }
{
    let mut marks = Vec::with_capacity(alloc, slots.len())?;
    for slot in slots {
        add(&mut marks, slot.mark())?;
    }
    Ok(marks)
}

/// How many actions are not finished.
pub(crate) fn left_of(slots: &[Slot]) -> usize
    ensures { result ≡ unfinished slots.now }
{
    let mut left = 0;
    for slot in slots {
        if slot.is_left() {
            left += 1;
        }
    }
    left
}
