//! What each fault follows from directly.
ghost use Rattle.std.specs.Prelude.{◌≡◌, IfOk, IfSome, slice_get};
ghost use Rattle.go_cause_core.specs.Causes.{AreDirect, IsDirect, fits};

use crate::pairs::may_follow;
use go_snap_core::PlacedFault;
use std::alloc::{AllocError, Global};

/// The fault of a number.
pub(crate) fn fault_of(faults: &[PlacedFault], number: usize) -> Option<PlacedFault>
    ensures { result ≡ slice_get faults.now number }
{
    faults.get(number).copied()
}

// Whether both faults are there, and the rules allow that the one follows from the other.
fn fits(cause: Option<PlacedFault>, follower: Option<PlacedFault>) -> bool
    ensures { result ≡ fits cause follower }
{
    match cause {
        None => false,
        Some(cause) => match follower {
            None => false,
            Some(follower) => may_follow(cause.rule, follower.rule),
        },
    }
}

// The candidate, where it is another fault of which the rules allow that the fault of a number follows from it.
fn judged(faults: &[PlacedFault], number: usize, candidate: Option<usize>) -> Option<usize>
    ensures { IfSome result (λ cause. IsDirect faults.now number cause) }
{
    match candidate {
        None => None,
        Some(cause) => {
            if cause != number && fits(fault_of(faults, cause), fault_of(faults, number)) {
                Some(cause)
            } else {
                None
            }
        }
    }
}

/// The candidate of a number.
pub(crate) fn candidate_of(candidates: &[Option<usize>], number: usize) -> Option<usize> {
    match candidates.get(number) {
        Some(candidate) => *candidate,
        None => None,
    }
}

/// Of each fault the number of the fault that it follows from directly: its candidate, where that is another fault and the rules allow it.
///
/// # Errors
///
/// `AllocError` where memory is wanting.
pub(crate) fn direct_causes(
    alloc: Global,
    faults: &[PlacedFault],
    candidates: &[Option<usize>],
) -> Result<Vec<Option<usize>>, AllocError>
    ensures { IfOk result (λ direct. AreDirect faults.now direct.items) }
{
    let mut direct = Vec::new(alloc);
    for number in 0..faults.len() {
        direct.push(judged(faults, number, candidate_of(candidates, number)))?;
    }
    Ok(direct)
}
