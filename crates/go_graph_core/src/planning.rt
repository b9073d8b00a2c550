//! The import plan of a workspace: what each import comes to, and an order of the packages.
ghost use Rattle.std.specs.Prelude.{◌≡◌, ◌++◌, [], All, IfOk, OnOk, length, map};
ghost use Rattle.std.specs.List.{AllZip, flat_map, filter};
ghost use Rattle.go_digraph_core.specs.cycle.Cycle.{InRange};
ghost use Rattle.go_graph_core.specs.Plans.{IsPlan, IsOrderly, AreImporters, AreReached, outcome_at, outcomes_shown, plan_of, plan_with};
ghost use Rattle.go_graph_core.specs.mirrors.Targets.{IsSettled, AreSettled, AreAllSettled, edge_of, package_edges, edges_from, is_assembled};

use crate::imports::{ImportAt, ImportOutcome, Standing, standings, targets};
use crate::workspace::Workspace;
use go_collections_core::text_core::Rule;
use go_digraph_core::cycle::{Edge, Ranked, rank_and_order};
use go_digraph_core::reach::{Reached, find_reached, starts_of};
use std::alloc::{AllocError, Global};
use std::marker::Model;
use std::sync::Arc;

/// Adds the edges of a file of a package.
fn add_edges(
    edges: &mut Vec<Edge>,
    from: usize,
    targets: &[ImportOutcome],
) -> Result<(), AllocError>
    ensures { OnOk result (edges.new.items ≡ edges.old.items ++ flat_map (edge_of from) targets.now) }
{
    for target in targets {
        if let ImportOutcome::Package(to) = *target {
            edges.push(Edge { from, to })?;
        }
    }
    Ok(())
}

/// Adds the edges of a package.
fn add_package_edges(
    edges: &mut Vec<Edge>,
    from: usize,
    files: &[Vec<ImportOutcome>],
) -> Result<(), AllocError>
    ensures { OnOk result (edges.new.items ≡ edges.old.items ++ package_edges from files.now) }
{
    for targets in files {
        add_edges(edges, from, targets)?;
    }
    Ok(())
}

/// The edges of all packages.
fn edges(alloc: Global, targets: &[Vec<Vec<ImportOutcome>>]) -> Result<Vec<Edge>, AllocError>
    ensures { IfOk result (λ edges. edges.items ≡ edges_from 0 targets.now) }
{
    let mut edges = Vec::new(alloc);
    for (from, files) in targets.iter().enumerate() {
        add_package_edges(&mut edges, from, files)?;
    }
    Ok(edges)
}

/// What an import comes to, where cycles count.
fn settled(ranked: &Ranked, from: usize, target: ImportOutcome) -> ImportOutcome
    ensures { IsSettled ranked.now.ranks from target result }
{
    match target {
        ImportOutcome::Package(to) => {
            if ranked.is_on_cycle(Edge { from, to }) {
                ImportOutcome::Refused(Rule::I4)
            } else {
                ImportOutcome::Package(to)
            }
        }
        ImportOutcome::Refused(rule) => ImportOutcome::Refused(rule),
    }
}

/// Settles what the imports of a file come to, where cycles count.
fn settle_file(ranked: &Ranked, from: usize, targets: &mut [ImportOutcome])
    ensures { AllZip (IsSettled ranked.now.ranks from) targets.old targets.new }
{
    for target in targets.iter_mut() {
        *target = settled(ranked, from, *target);
    }
}

/// Settles what the imports of a package come to, where cycles count.
fn settle_package(ranked: &Ranked, from: usize, files: &mut [Vec<ImportOutcome>])
    ensures { AreSettled ranked.now.ranks from files.old files.new }
{
    for targets in files.iter_mut() {
        settle_file(ranked, from, targets);
    }
}

/// Settles what all imports come to, where cycles count.
fn settle(ranked: &Ranked, packages: &mut [Vec<Vec<ImportOutcome>>])
    ensures { AreAllSettled ranked.now.ranks packages.old packages.new }
{
    for from in 0..packages.len() {
        settle_package(ranked, from, &mut packages[from]);
    }
}

/// Whether a package is assembled.
fn is_assembled(standings: &[Standing], number: usize) -> bool
    ensures { result ≡ is_assembled standings.now number }
{
    match standings.get(number) {
        Some(Standing::Library | Standing::Main) => true,
        Some(Standing::Faulty) | None => false,
    }
}

/// The assembled packages among these, in their order.
fn assembled(
    alloc: Global,
    numbers: &[usize],
    standings: &[Standing],
) -> Result<Vec<usize>, AllocError>
    ensures { IfOk result (λ order. order.items ≡ filter (is_assembled standings.now) numbers.now) }
{
    let mut order = Vec::with_capacity(alloc, numbers.len())?;
    for number in numbers {
        if is_assembled(standings, *number) {
            order.push(*number)?;
        }
    }
    Ok(order)
}

/// What is planned.
#[derive(Drop)]
struct PlanContent {
    outcomes: Vec<Vec<Vec<ImportOutcome>>>,
    order: Vec<usize>,
    edges: Vec<Edge>,
}

/// The import plan of a workspace. It is a handle: what is shared has one content. Contracts see it as the outcomes of the
/// imports, by package, file and import, the order, and the edges that decide which imports lie on a cycle.
pub struct Plan {
    content: Arc<PlanContent>,
}

impl Drop for Plan {
    fn drop(self) {
        let Plan { content: _ } = self;
    }
}

impl Model for Plan {
    ghost use Rattle.std.specs.Prelude.{length};
    ghost use Rattle.std.specs.Arc.{arc_value};
    ghost use Rattle.go_digraph_core.specs.cycle.Cycle.{InRange};
    ghost use Rattle.go_graph_core.specs.Plans.{PlanModel, plan_of, plan_with, outcomes_shown, IsOrderly};

    ghost Value = { PlanModel };

    ghost view = { λ p. plan_with (outcomes_shown (arc_value p.content).outcomes.items) (arc_value p.content).order.items (arc_value p.content).edges.items };

    ghost invariant = { λ p. IsOrderly (plan_of (outcomes_shown (arc_value p.content).outcomes.items) (arc_value p.content).order.items)
        × InRange (length (arc_value p.content).outcomes.items) (arc_value p.content).edges.items };
}

/// For each package what it reaches by passing imports.
fn reached_by(
    alloc: Global,
    outcomes: &[Vec<Vec<ImportOutcome>>],
    order: &[usize],
) -> Result<Reached, AllocError>
    requires { IsOrderly (plan_of (outcomes_shown outcomes.now) order.now) }
    ensures many { IfOk result (λ sets. length sets ≡ length outcomes.now) }
    ensures bound { IfOk result (λ sets. All (λ s. s.bound ≡ length outcomes.now) sets) }
    ensures sets { IfOk result (AreReached (plan_of (outcomes_shown outcomes.now) order.now)) }
{
    let edges = edges(alloc, outcomes)?;
    find_reached(alloc, outcomes.len(), order, &edges)
}

/// For each package those whose passing imports come to it.
fn importers_by(
    alloc: Global,
    outcomes: &[Vec<Vec<ImportOutcome>>],
) -> Result<Vec<Vec<usize>>, AllocError>
    requires { InRange (length outcomes.now) (edges_from 0 outcomes.now) }
    ensures many { IfOk result (λ rows. length rows.items ≡ length outcomes.now) }
    ensures rows { IfOk result (λ rows. AreImporters (plan_of (outcomes_shown outcomes.now) []) (map (λ r. r.items) rows.items)) }
{
    let edges = edges(alloc, outcomes)?;
    starts_of(alloc, outcomes.len(), &edges)
}

impl Plan {
    /// The same plan, once more. It takes no memory.
    ///
    /// # Errors
    ///
    /// `AllocError` where the plan has too many owners.
    pub fn share(&self) -> Result<Plan, AllocError>
        ensures { IfOk result (λ p. p ≡ self.now) }
    {
        Ok(Plan {
            content: Arc::try_clone(&self.content)?,
        })
    }

    /// What the import at a place comes to: the package that it names, or the first of these rules that it breaks.
    /// `None` where there is no import.
    ///
    /// - `Rule::I1` where its text is no path.
    /// - `Rule::I3` where the package may not import the path.
    /// - `Rule::I2` where there is no package of the path.
    /// - `Rule::I6` where that package is not assembled.
    /// - `Rule::I5` where its name is `main`.
    /// - `Rule::I4` where the import lies on a cycle of imports that break none of these, or is of its own package.
    pub fn outcome(&self, at: ImportAt) -> Option<ImportOutcome>
        ensures { result ≡ outcome_at self.now.outcomes at }
    {
        let files = self.content.outcomes.get(at.package)?;
        let imports = files.get(at.file)?;
        imports.get(at.import).copied()
    }

    /// The numbers of the assembled packages, each once, behind those of the packages that its imports come to.
    pub fn order(&self) -> &[usize]
        ensures { result.now ≡ self.now.order }
    {
        self.content.order.as_slice()
    }

    /// The edges that decide which imports lie on a cycle: from the number of a package to that of each package that its
    /// imports come to, cycles left aside, once for each import. An import that is refused by `Rule::I4` has an edge; one that
    /// is refused by another rule has none.
    pub fn edges(&self) -> &[Edge]
        ensures edges { result.now ≡ self.now.edges }
        // Each joins two packages.
        ensures range { InRange (length self.now.outcomes) self.now.edges }
    {
        self.content.edges.as_slice()
    }

    /// For each package, by number, the packages that it reaches: those that a list of at least one passing import leads to from it.
    ///
    /// # Errors
    ///
    /// `AllocError` for want of memory.
    pub fn reached(&self, alloc: Global) -> Result<Reached, AllocError>
        ensures many { IfOk result (λ sets. length sets ≡ length self.now.outcomes) }
        // Each set can be put into each other.
        ensures bound { IfOk result (λ sets. All (λ s. s.bound ≡ length self.now.outcomes) sets) }
        ensures sets { IfOk result (AreReached self.now) }
    {
        reached_by(alloc, &self.content.outcomes, &self.content.order)
    }

    /// For each package, by number, the numbers of the packages whose passing imports come to it, once for each such import.
    /// The time is linear in packages and imports.
    ///
    /// # Errors
    ///
    /// `AllocError` for want of memory.
    pub fn importers(&self, alloc: Global) -> Result<Vec<Vec<usize>>, AllocError>
        ensures many { IfOk result (λ rows. length rows.items ≡ length self.now.outcomes) }
        ensures rows { IfOk result (λ rows. AreImporters self.now (map (λ r. r.items) rows.items)) }
    {
        importers_by(alloc, &self.content.outcomes)
    }
}

/// What is planned for a workspace: what each import comes to, the assembled packages in an order, and the edges.
fn plan_content(alloc: Global, workspace: &Workspace) -> Result<PlanContent, AllocError>
    ensures { IfOk result (λ p. IsPlan workspace.now (plan_with (outcomes_shown p.outcomes.items) p.order.items p.edges.items)) }
{
    let packages = workspace.packages();
    let standings = standings(alloc, packages)?;
    let mut outcomes = targets(alloc, packages, &standings)?;
    let edges = edges(alloc, &outcomes)?;
    let ranked = rank_and_order(alloc, &edges, packages.len())?;
    let order = assembled(alloc, ranked.order(), &standings)?;
    settle(&ranked, &mut outcomes);
    Ok(PlanContent {
        outcomes,
        order,
        edges,
    })
}

/// Plans the imports of a workspace: what each comes to, and an order in which the packages can be built.
///
/// An import has "an ImportPath that specifies the package to be imported", and "it is illegal for a package to
/// import itself, directly or indirectly" (the Go specification, "Import declarations"). A program is linked from
/// "a single, unimported package called the main package" ("Program execution"). The imports of a package that is
/// not assembled are planned as well: they lie on no cycle, and the package is not in the order.
///
/// # Errors
///
/// `AllocError` for want of memory.
pub fn plan_imports(alloc: Global, workspace: &Workspace) -> Result<Plan, AllocError>
    ensures { IfOk result (IsPlan workspace.now) }
{
    let content = plan_content(alloc, workspace)?;
    Ok(Plan {
        content: Arc::new(alloc, content)?,
    })
}
