//! Room for what is made. Generic, so that no loop or branch over trees writes out how a tree is dropped that finds
//! no room.
ghost use Rattle.std.specs.Prelude.{◌≡◌, ◌++◌, [], ◌∷◌, IfOk, OnOk};

use std::alloc::{AllocError, Global};

/// One more at the end. Most lists of a tree have one item: the first gets room for itself alone, and each time that
/// the room is full it is doubled.
///
/// # Errors
///
/// [`AllocError`] where memory runs out.
pub fn add<T: Drop>(all: &mut Vec<T>, last: T) -> Result<(), AllocError>
    ensures { OnOk result (all.new.items ≡ all.old.items ++ last ∷ []) }
{
    if all.len() == all.capacity() {
        all.reserve_exact(all.len().max(1))?;
    }
    all.push(last)?;
    Ok(())
}

/// A list that is complete, without the room that is left over. A list for which no smaller room is found keeps what
/// it has.
pub fn fitted<T: Drop>(all: Vec<T>) -> Vec<T>
    ensures { result.items ≡ all.items }
{
    let mut fitted = all;
    fitted.shrink_to_fit();
    fitted
}

/// A value in a box.
///
/// # Errors
///
/// [`AllocError`] where memory runs out.
pub fn boxed<T: Drop>(alloc: Global, value: T) -> Result<Box<T>, AllocError>
    ensures { IfOk result (λ x. x.value ≡ value) }
{
    Ok(Box::new(alloc, value)?)
}
