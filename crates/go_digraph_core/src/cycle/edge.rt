//! Edges between numbered nodes.
ghost use Rattle.std.specs.Prelude.{◌≡◌, IfOk, map};
ghost use Rattle.go_digraph_core.specs.cycle.Cycle.{reversed};

use std::alloc::{AllocError, Global};

/// An edge between two nodes.
#[derive(Clone, Copy, Debug, PartialEq, Eq)]
pub struct Edge {
    /// The node where it starts.
    pub from: usize,
    /// The node where it ends.
    pub to: usize,
}

impl Edge {
    // The edge between the same nodes the other way.
    fn reversed(self) -> Edge
        ensures { result ≡ reversed self }
    {
        Edge {
            from: self.to,
            to: self.from,
        }
    }
}

/// All edges the other way.
pub fn reversed_edges(alloc: Global, edges: &[Edge]) -> Result<Vec<Edge>, AllocError>
    ensures { IfOk result (λ back. back.items ≡ map reversed edges.now) }
{
    edges.iter().map(|edge| edge.reversed()).collect(alloc)
}
