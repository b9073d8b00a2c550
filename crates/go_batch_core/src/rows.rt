//! Whether a package has by one plan what it has by another, and whether an import of a package comes to one that is marked.
ghost use Rattle.std.specs.Prelude.{◌≡◌, IfOk, IsTrue, Some, false, length, slice_get};
ghost use Rattle.go_block_core.specs.graph_core.Workspaces.{PackageModel};
ghost use Rattle.go_import_core.specs.head.Rows.{HaveSameRows};
ghost use Rattle.go_batch_core.specs.mirrors.Rows.{AreRowsClear, HaveSameReached, IsClear, IsRowClear};

use crate::marks::is_marked;
use crate::planned::Planned;
use go_block_core::graph_core::{ImportAt, ImportOutcome, PackageSource, Plan};
use go_digraph_core::reach::Reached;
use go_import_core::head::same_rows;
use std::alloc::{AllocError, Global};

// Whether a package reaches the same packages.
fn same_reached(
    alloc: Global,
    one: &Reached,
    other: &Reached,
    package: usize,
) -> Result<bool, AllocError>
    ensures { IfOk result (λ is. IsTrue is → HaveSameReached one.now other.now «package») }
{
    let (Some(one), Some(other)) = (one.of(package), other.of(package)) else {
        return Ok(false);
    };
    let numbers = one.list(alloc)?;
    let others = other.list(alloc)?;
    Ok(numbers.as_slice() == others.as_slice())
}

/// Whether by two plans the imports of a package that has so many files come to the same, and the package reaches the same.
///
/// # Errors
///
/// `AllocError` where memory is wanting.
pub(crate) fn has_same(
    alloc: Global,
    one: &Planned,
    other: &Planned,
    package: usize,
    files: usize,
) -> Result<bool, AllocError>
    ensures rows { IfOk result (λ is. IsTrue is → HaveSameRows one.now.plan other.now.plan «package» files) }
    ensures reached { IfOk result (λ is. IsTrue is → HaveSameReached one.now.reached other.now.reached «package») }
{
    if !same_rows(one.plan.as_plan(), other.plan.as_plan(), package, files) {
        return Ok(false);
    }
    same_reached(alloc, one.reached.get(), other.reached.get(), package)
}

/// How many files the package of a number has: none where there is no such package.
pub(crate) fn files_at(packages: &[PackageSource], number: usize) -> usize
    ensures { (p : PackageModel) → slice_get packages.now number ≡ Some p → result ≡ length p.1 }
{
    match packages.get(number) {
        Some(package) => package.files().len(),
        None => 0,
    }
}

// Whether what an import comes to is a package that is marked.
fn is_to_marked(outcome: ImportOutcome, marks: &[bool]) -> bool
    ensures { result ≡ false → IsClear outcome marks.now }
{
    match outcome {
        ImportOutcome::Package(number) => is_marked(marks, number),
        ImportOutcome::Refused(_) => false,
    }
}

// Whether an import of a file comes to a package that is marked.
fn row_marked(plan: &Plan, package: usize, file: usize, marks: &[bool]) -> bool
    ensures { result ≡ false → IsRowClear plan.now «package» file marks.now }
{
    for import in 0..usize::MAX {
        let at = ImportAt {
            package,
            file,
            import,
        };
        match plan.outcome(at) {
            Some(outcome) => {
                if is_to_marked(outcome, marks) {
                    return true;
                }
            }
            None => return false,
        }
    }
    true
}

/// Whether an import of a package that has so many files comes to a package that is marked. The time is linear in its imports.
pub(crate) fn rows_marked(plan: &Plan, package: usize, files: usize, marks: &[bool]) -> bool
    ensures { result ≡ false → AreRowsClear plan.now «package» marks.now files }
{
    for file in 0..files {
        if row_marked(plan, package, file, marks) {
            return true;
        }
    }
    false
}
