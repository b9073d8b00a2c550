//! Where chains end: of numbers of which each leads to one other at most.

mod follow;
mod laws;

ghost use Rattle.std.specs.Prelude.{IfOk};
ghost use Rattle.go_digraph_core.specs.chain.Chains.{AllInside, AreEnds};

use crate::chain::follow::follow_chain;
pub use crate::chain::laws::{endless_leads_back, ends_are_counted, one_end};
use std::alloc::{AllocError, Global};

/// For each number below the list's length, the number at which its chain ends: the last that is reached from it by following
/// `next`, which is itself where `next` has none for it. None where the chain has no end. It takes time that is linear in the
/// list.
///
/// # Errors
///
/// `AllocError` where memory is wanting.
pub fn chain_ends(alloc: Global, next: &[Option<usize>]) -> Result<Vec<Option<usize>>, AllocError>
    requires { AllInside next.now }
    ensures { IfOk result (λ ends. AreEnds next.now ends.items) }
{
    let mut marks = vec![in alloc; false; next.len()]?;
    let mut ends = vec![in alloc; None; next.len()]?;
    let mut way = Vec::new(alloc);
    for start in 0..next.len() {
        follow_chain(next, &mut marks, &mut ends, &mut way, start)?;
    }
    Ok(ends)
}
