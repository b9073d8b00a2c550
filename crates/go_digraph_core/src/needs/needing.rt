//! What values are made of.
ghost use Rattle.std.specs.Prelude.{◌≡◌, IfOk};

use std::alloc::{AllocError, Global};

/// What each node is worth, by what those are worth that it needs.
pub trait Needing {
    ghost use Rattle.std.specs.Prelude.{ℕ, List, Option};
    ghost use Rattle.go_digraph_core.specs.needs.Needs.{known_in, LooksAtNeeds};

    type Value: Drop;

    // the nodes that each node needs
    ghost rows: { Self → List (List ℕ) };

    // the value of a node, by what is known of those that it needs
    ghost value: { Self → (ℕ → Option Self.Value) → ℕ → Self.Value };

    ghost at_needs: { (a : Self) → LooksAtNeeds (rows a) (value a) };

    /// The value of a node. `known` has a value at the number of each node that it needs, and may have others.
    ///
    /// # Errors
    ///
    /// `AllocError` where memory is wanting.
    fn value_of(
        &self,
        alloc: Global,
        known: &[Option<Self::Value>],
        node: usize,
    ) -> Result<Self::Value, AllocError>
        ensures { IfOk result (λ v. v ≡ value self.now (known_in known.now) node) };
}
