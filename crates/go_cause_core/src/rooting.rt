//! Where the chains of direct causes end.
ghost use Rattle.std.specs.Prelude.{◌≡◌, IfOk};
ghost use Rattle.go_digraph_core.specs.chain.Chains.{AllInside};
ghost use Rattle.go_cause_core.specs.Causes.{AreRoots, HaveRoots, cause_at};

use crate::cause::Cause;
use go_digraph_core::chain::{chain_ends, ends_are_counted};
use std::alloc::{AllocError, Global};

// What stands at the fault of a number whose chain of causes ends there.
fn cause_at(number: usize, end: Option<usize>) -> Cause
    ensures { result ≡ cause_at number end }
{
    match end {
        None => Cause::Root,
        Some(root) => {
            if root == number {
                Cause::Root
            } else {
                Cause::Follows { root }
            }
        }
    }
}

/// Where each fault stands, by what it follows from directly: a fault follows where its chain of direct causes ends at another fault, and its root is that
/// end. One whose chain leads back to itself is a root. It takes time that is linear in the list.
///
/// # Errors
///
/// `AllocError` where memory is wanting.
pub fn roots(alloc: Global, direct: &[Option<usize>]) -> Result<Vec<Cause>, AllocError>
    requires { AllInside direct.now }
    ensures exact { IfOk result (λ causes. AreRoots direct.now causes.items) }
    ensures roots { IfOk result (λ causes. HaveRoots causes.items) }
{
    ends_are_counted();
    let ends = chain_ends(alloc, direct)?;
    let mut causes = Vec::new(alloc);
    for number in 0..ends.len() {
        causes.push(cause_at(number, ends[number]))?;
    }
    Ok(causes)
}
