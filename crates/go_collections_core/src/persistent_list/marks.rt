//! Marks of items that stay.
ghost use Rattle.std.specs.Prelude.{◌≡◌, ◌*◌, ◌+◌, ◌<◌, ℕ, IsTrue, Some, slice_get, true};

use crate::persistent_list::piece::PIECE;

/// The marks of the items from the piece of a number on.
pub(crate) fn marks_from(same: &[bool], number: usize) -> &[bool]
    ensures { (n : ℕ) → slice_get result.now n ≡ Some true → slice_get same.now (64 * number + n) ≡ Some true }
{
    match number.checked_mul(PIECE) {
        Some(start) if start < same.len() => &same[start..],
        _ => &[],
    }
}

/// Whether so many items, from the first, are all marked.
pub(crate) fn all_stay(same: &[bool], count: usize) -> bool
    ensures { IsTrue result → (n : ℕ) → n < count → slice_get same.now n ≡ Some true }
{
    match same.get(..count) {
        Some(marks) => marks.iter().all(|mark| *mark),
        None => false,
    }
}
