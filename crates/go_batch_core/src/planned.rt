//! The plan of a workspace with what its packages reach, shared.
ghost use Rattle.std.specs.Prelude.{◌≡◌, IfOk};
ghost use Rattle.go_import_core.specs.head.Heads.{HaveSameHeads};
ghost use Rattle.go_batch_core.specs.Planning.{IsPlanned};

use go_block_core::graph_core::{Workspace, plan_imports};
use go_digraph_core::reach::Reached;
use go_import_core::head::{ListedPlan, plans_stay};
use std::alloc::{AllocError, Global};
use std::marker::Model;
use std::sync::Arc;

/// What the packages of a workspace reach. A handle over one shared pointer; contracts see the list of the sets.
pub struct SharedReached {
    reached: Arc<Reached>,
}

impl Drop for SharedReached {
    fn drop(self) {
        let SharedReached { reached: _ } = self;
    }
}

impl Model for SharedReached {
    ghost use Rattle.std.specs.Prelude.{List};
    ghost use Rattle.std.specs.Arc.{arc_value};
    ghost use Rattle.go_digraph_core.specs.reach.Numbers.{Numbers};

    ghost Value = { List Numbers };

    ghost view = { λ r. arc_value r.reached };
}

impl SharedReached {
    fn new(alloc: Global, reached: Reached) -> Result<SharedReached, AllocError>
        ensures { IfOk result (λ r. r ≡ reached) }
    {
        Ok(SharedReached {
            reached: Arc::new(alloc, reached)?,
        })
    }

    /// The same once more. It takes no memory.
    ///
    /// # Errors
    ///
    /// `AllocError` where it has too many owners.
    pub fn share(&self) -> Result<SharedReached, AllocError>
        ensures { IfOk result (λ r. r ≡ self.now) }
    {
        Ok(SharedReached {
            reached: Arc::try_clone(&self.reached)?,
        })
    }

    /// The sets.
    pub fn get(&self) -> &Reached
        ensures { result.now ≡ self.now }
    {
        &self.reached
    }
}

/// The plan of a workspace, and what its packages reach by it. Both are shared.
#[derive(Drop)]
pub struct Planned {
    pub plan: ListedPlan,
    pub reached: SharedReached,
}

impl Planned {
    /// The plan of a workspace.
    ///
    /// # Errors
    ///
    /// `AllocError` where memory is wanting.
    pub fn of(alloc: Global, sources: &Workspace) -> Result<Planned, AllocError>
        ensures { IfOk result (λ p. IsPlanned sources.now p.plan p.reached) }
    {
        // Its packages stand in order of path.
        let _packages = sources.packages();
        let drawn = plan_imports(alloc, sources)?;
        let sets = drawn.reached(alloc)?;
        let reached = SharedReached::new(alloc, sets)?;
        let plan = ListedPlan::of(alloc, drawn)?;
        Ok(Planned { plan, reached })
    }

    /// The same once more. It takes no memory.
    ///
    /// # Errors
    ///
    /// `AllocError` where it has too many owners.
    pub fn share(&self) -> Result<Planned, AllocError>
        ensures plan { IfOk result (λ p. p.plan ≡ self.now.plan) }
        ensures reached { IfOk result (λ p. p.reached ≡ self.now.reached) }
    {
        Ok(Planned {
            plan: self.plan.share()?,
            reached: self.reached.share()?,
        })
    }

    /// The plan of other packages with the same paths and imports. It is shared.
    ///
    /// # Errors
    ///
    /// `AllocError` where it has too many owners.
    pub fn again(&self, earlier: &Workspace, sources: &Workspace) -> Result<Planned, AllocError>
        requires planned { IsPlanned earlier.now self.now.plan self.now.reached }
        requires heads { HaveSameHeads earlier.now sources.now }
        ensures { IfOk result (λ p. IsPlanned sources.now p.plan p.reached) }
    {
        plans_stay();
        // Its packages stand in order of path.
        let _packages = sources.packages();
        self.share()
    }
}
