//! Which needs lead back to where they come from.
ghost use Rattle.std.specs.Prelude.{◌≡◌, ◌<◌, All, IfOk, length};
ghost use Rattle.go_digraph_core.specs.needs.Needs.{NeedsAreInside, rows_of};
ghost use Rattle.go_value_core.specs.Around.{AreLeadingBack};
ghost use Rattle.go_value_core.specs.mirrors.Flags.{flags_from, has_own_rank};

use go_digraph_core::cycle::rank_and_order;
use go_digraph_core::needs::edges_of;
use std::alloc::{AllocError, Global};

// Whether one of the needed nodes has the rank of the node that needs it.
fn has_own_rank(ranks: &[usize], node: usize, row: &[usize]) -> bool
    requires node { node < length ranks.now }
    requires row { All (λ b. b < length ranks.now) row.now }
    ensures { result ≡ has_own_rank ranks.now node row.now }
{
    for needed in row {
        if ranks[*needed] == ranks[node] {
            return true;
        }
    }
    false
}

// For each node whether one of those that it needs has its rank.
fn own_ranks(alloc: Global, ranks: &[usize], needs: &[Vec<usize>]) -> Result<Vec<bool>, AllocError>
    requires ranks { length ranks.now ≡ length needs.now }
    requires inside { NeedsAreInside (rows_of needs.now) }
    ensures { IfOk result (λ flags. flags.items ≡ flags_from ranks.now 0 (rows_of needs.now)) }
{
    let mut flags = Vec::with_capacity(alloc, needs.len())?;
    for (node, row) in needs.iter().enumerate() {
        flags.push(has_own_rank(ranks, node, row))?;
    }
    Ok(flags)
}

/// For each node whether what it needs leads back to it: exactly, so not where that merely leads to others that lead back to themselves. It
/// takes time that is linear in the rows.
///
/// # Errors
///
/// `AllocError` where memory is wanting.
pub(crate) fn leading_back(alloc: Global, needs: &[Vec<usize>]) -> Result<Vec<bool>, AllocError>
    requires { NeedsAreInside (rows_of needs.now) }
    ensures { IfOk result (λ flags. AreLeadingBack (rows_of needs.now) flags.items) }
{
    let edges = edges_of(alloc, needs)?;
    let ranked = rank_and_order(alloc, &edges, needs.len())?;
    own_ranks(alloc, ranked.ranks(), needs)
}
