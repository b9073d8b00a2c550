//! The packages that a package could import.
ghost use Rattle.std.specs.Prelude.{◌≡◌, ◌<◌, ◌↔◌, ◌++◌, ◌∷◌, ℕ, [], IfOk, IsTrue, OnOk, Contains, if◌then◌else◌, length};
ghost use Rattle.std.specs.List.Sorted.{IsStrictlyIncreasing};
ghost use Rattle.go_graph_core.specs.Imports.{LiesOnCycle, edge};
ghost use Rattle.go_graph_core.specs.Workspaces.{IsWorkspace};
ghost use Rattle.go_import_core.specs.list.Importing.{IsImportable};
ghost use Rattle.go_import_core.specs.list.mirrors.Marks.{MarkCycles};
ghost use Rattle.go_import_core.specs.list.mirrors.Standings.{MayUse};

use crate::list::judging::cycle_marks;
use crate::list::standing::standing_of;
use go_graph_core::{PackageSource, Workspace};
use go_path_core::text_core::add;
use go_path_core::{ImportPath, may_import};
use std::alloc::{AllocError, Global};

// Whether an import of a package comes to it, cycles left aside.
fn may_use(from: &ImportPath, source: &PackageSource) -> Result<bool, AllocError>
    ensures { IfOk result (λ b. IsTrue b ↔ MayUse from.now source.now) }
{
    if !may_import(from, source.path()) {
        return Ok(false);
    }
    let standing = standing_of(source)?;
    Ok(standing.is_library())
}

// Whether an import of the package of a number comes to it, where it would lie on a cycle exactly where the mark is set.
fn is_importable(
    packages: &[PackageSource],
    own: usize,
    number: usize,
    lies_on_cycle: bool,
) -> Result<bool, AllocError>
    requires well { IsWorkspace packages.now }
    requires own { own < length packages.now }
    requires number { number < length packages.now }
    requires mark { IsTrue lies_on_cycle ↔ LiesOnCycle packages.now (edge own number) }
    ensures { IfOk result (λ b. IsTrue b ↔ IsImportable packages.now own number) }
{
    if lies_on_cycle {
        return Ok(false);
    }
    may_use(packages[own].path(), &packages[number])
}

// Adds a number where it is one of those that are sought.
fn add_if(numbers: &mut Vec<usize>, number: usize, is_sought: bool) -> Result<(), AllocError>
    ensures { OnOk result (numbers.new.items ≡ (if is_sought then numbers.old.items ++ number ∷ [] else numbers.old.items)) }
{
    if is_sought {
        add(numbers, number)?;
    }
    Ok(())
}

// The packages that could be imported, by these marks.
fn importable_among(
    alloc: Global,
    packages: &[PackageSource],
    own: usize,
    marks: &[bool],
) -> Result<Vec<usize>, AllocError>
    requires well { IsWorkspace packages.now }
    requires own { own < length packages.now }
    requires many { length marks.now ≡ length packages.now }
    requires marks { MarkCycles packages.now own marks.now }
    ensures rising { IfOk result (λ numbers. IsStrictlyIncreasing numbers.items) }
    ensures exact { IfOk result (λ numbers. (n : ℕ) → Contains numbers.items n ↔ IsImportable packages.now own n) }
{
    let mut numbers = Vec::new(alloc);
    for number in 0..packages.len() {
        let is_sought = is_importable(packages, own, number, marks[number])?;
        add_if(&mut numbers, number, is_sought)?;
    }
    Ok(numbers)
}

/// The packages that the package of a number could import, by their numbers, rising: those of which an import there would come to them, or does.
/// A package that imports lead from to this one is none of them, nor is this one. The time is linear in the imports of the workspace and in the
/// clauses of its files.
///
/// # Errors
///
/// `AllocError` where memory is wanting.
pub fn importable(
    alloc: Global,
    workspace: &Workspace,
    own: usize,
) -> Result<Vec<usize>, AllocError>
    requires { own < length workspace.now }
    ensures rising { IfOk result (λ numbers. IsStrictlyIncreasing numbers.items) }
    ensures exact { IfOk result (λ numbers. (n : ℕ) → Contains numbers.items n ↔ IsImportable workspace.now own n) }
{
    let marks = cycle_marks(alloc, workspace, own)?;
    importable_among(alloc, workspace.packages(), own, &marks)
}
