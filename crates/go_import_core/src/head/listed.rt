//! Plans whose importers are listed once.
ghost use Rattle.std.specs.Arc.{arc_value};
ghost use Rattle.std.specs.Prelude.{◌≡◌, IfOk, length, map};
ghost use Rattle.go_graph_core.specs.Plans.{AreImporters};

use go_graph_core::Plan;
use std::alloc::{AllocError, Global};
use std::marker::Model;
use std::sync::Arc;

/// A plan, with the packages whose passing imports come to each package, which are listed once for all that need them. Both are shared; contracts see the
/// plan.
pub struct ListedPlan {
    plan: Plan,
    importers: Arc<Vec<Vec<usize>>>,
}

impl Drop for ListedPlan {
    fn drop(self) {
        let ListedPlan {
            plan: _,
            importers: _,
        } = self;
    }
}

impl Model for ListedPlan {
    ghost use Rattle.std.specs.Prelude.{◌≡◌, length, map};
    ghost use Rattle.std.specs.Arc.{arc_value};
    ghost use Rattle.go_graph_core.specs.Plans.{AreImporters, PlanModel};

    ghost Value = { PlanModel };

    ghost view = { λ p. p.plan };

    ghost invariant = { λ p. AreImporters p.plan (map (λ r. r.items) (arc_value p.importers).items) × (length (arc_value p.importers).items ≡ length p.plan.outcomes) };
}

impl ListedPlan {
    /// A plan with its importers.
    ///
    /// # Errors
    ///
    /// `AllocError` where memory is wanting.
    pub fn of(alloc: Global, plan: Plan) -> Result<ListedPlan, AllocError>
        ensures { IfOk result (λ p. p ≡ plan) }
    {
        let listed = plan.importers(alloc)?;
        let importers = Arc::new(alloc, listed)?;
        Ok(ListedPlan { plan, importers })
    }

    /// The same once more. It takes no memory.
    ///
    /// # Errors
    ///
    /// `AllocError` where it has too many owners.
    pub fn share(&self) -> Result<ListedPlan, AllocError>
        ensures { IfOk result (λ p. p ≡ self.now) }
    {
        let plan = self.plan.share()?;
        let importers = Arc::try_clone(&self.importers)?;
        Ok(ListedPlan { plan, importers })
    }

    /// The plan.
    pub fn as_plan(&self) -> &Plan
        ensures { result.now ≡ self.now }
    {
        &self.plan
    }

    /// The numbers of the assembled packages, each once, behind those of the packages that its imports come to.
    pub fn order(&self) -> &[usize]
        ensures { result.now ≡ self.now.order }
    {
        self.plan.order()
    }

    /// For each package, by number, the numbers of the packages whose passing imports come to it, once for each such import. The lists are shared; it takes no
    /// memory.
    ///
    /// # Errors
    ///
    /// `AllocError` where they have too many owners.
    pub fn importers(&self) -> Result<Arc<Vec<Vec<usize>>>, AllocError>
        ensures many { IfOk result (λ rows. length (arc_value rows).items ≡ length self.now.outcomes) }
        ensures rows { IfOk result (λ rows. AreImporters self.now (map (λ r. r.items) (arc_value rows).items)) }
    {
        Arc::try_clone(&self.importers)
    }
}
