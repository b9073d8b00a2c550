//! Which packages of a workspace are those of an earlier one.
ghost use Rattle.std.specs.Prelude.{◌≡◌, ◌↔◌, All, IfOk, IsTrue, None, Some, slice_get};
ghost use Rattle.go_graph_core.specs.Workspaces.{AreAllRead, IsWorkspace};
ghost use Rattle.go_import_core.specs.head.Heads.{AreSameMarks, AreSpelledAlike, HaveSameHeads, spelled_head_of};
ghost use Rattle.go_import_core.specs.head.Outside.{AreSameOutside};
ghost use Rattle.go_import_core.specs.head.mirrors.Marking.{AreSameTwo, AreSameTwoAt, IsHeadOf, IsMarkOf};

use crate::head::heads::is_same_package_head;
use crate::head::outside::is_same_outside;
use crate::head::spans::changed;
use go_graph_core::{PackageSource, Workspace};
use go_path_core::Module;
use std::alloc::{AllocError, Global};

/// What a workspace has of an earlier one.
#[derive(Drop)]
pub struct Compared {
    /// Of each package, by its number, whether it is the package of that number in the earlier one.
    pub same: Vec<bool>,
    /// Whether all paths and all heads of files are those of the earlier one, number by number, and spelled alike.
    pub heads: bool,
}

// Whether two packages are the same, and whether their paths and heads are, spelled alike.
fn compare_one(modules: &[Module], one: &PackageSource, other: &PackageSource) -> (bool, bool)
    requires outside { AreSameTwo modules.now one.now other.now }
    requires own { AreAllRead one.now }
    requires other { AreAllRead other.now }
    ensures same { IsTrue result.0 ↔ (one.now ≡ other.now) }
    ensures head { IsTrue result.1 ↔ (spelled_head_of one.now ≡ spelled_head_of other.now) }
{
    if is_same_outside(modules, one, other) {
        return (true, true);
    }
    if one.is_same(other) {
        return (true, true);
    }
    (false, is_same_package_head(one, other))
}

// The same of the package of a number and another one, where there may be none of that number.
fn compare_at(
    modules: &[Module],
    packages: &[PackageSource],
    number: usize,
    other: &PackageSource,
) -> (bool, bool)
    requires outside { AreSameTwoAt modules.now packages.now number other.now }
    requires own { All AreAllRead packages.now }
    requires other { AreAllRead other.now }
    ensures same { IsMarkOf packages.now number other.now result.0 }
    ensures head { IsHeadOf packages.now number other.now result.1 }
{
    match packages.get(number) {
        Some(package) => compare_one(modules, package, other),
        None => (false, false),
    }
}

// What the packages of a list have of an earlier one.
fn compare_all(
    alloc: Global,
    modules: &[Module],
    packages: &[PackageSource],
    others: &[PackageSource],
) -> Result<Compared, AllocError>
    requires outside { AreSameOutside modules.now packages.now others.now }
    requires own { IsWorkspace packages.now }
    requires other { IsWorkspace others.now }
    requires own_read { All AreAllRead packages.now }
    requires other_read { All AreAllRead others.now }
    ensures same { IfOk result (λ c. AreSameMarks packages.now others.now c.same.items) }
    ensures heads { IfOk result (λ c. IsTrue c.heads → HaveSameHeads packages.now others.now) }
    ensures spelled { IfOk result (λ c. IsTrue c.heads ↔ AreSpelledAlike packages.now others.now) }
{
    let span = changed(alloc, modules, packages, others)?;
    let mut same = vec![in alloc; true; others.len()]?;
    let mut heads = packages.len() == others.len();
    for number in span.start..span.end {
        let (mark, head) = compare_at(modules, packages, number, &others[number]);
        same[number] = mark;
        heads = heads && head;
    }
    Ok(Compared { same, heads })
}

/// What a workspace has of an earlier one: which packages are the same, by their numbers; and whether all paths are, the names in the clauses of all files,
/// and the texts of their imports, in order. Imports that are spelled in another way, or declared in another form, count as others. A package of a path
/// outside the modules that were replaced is known to be the same. Where one module was replaced, and stands at the same numbers in both, no package before or
/// behind it is looked at; else the time is linear in the paths, and in the packages inside the modules.
///
/// # Errors
///
/// `AllocError` where memory is wanting.
pub fn compare(
    alloc: Global,
    modules: &[Module],
    earlier: &Workspace,
    current: &Workspace,
) -> Result<Compared, AllocError>
    requires { AreSameOutside modules.now earlier.now current.now }
    ensures same { IfOk result (λ c. AreSameMarks earlier.now current.now c.same.items) }
    ensures heads { IfOk result (λ c. IsTrue c.heads → HaveSameHeads earlier.now current.now) }
    ensures spelled { IfOk result (λ c. IsTrue c.heads ↔ AreSpelledAlike earlier.now current.now) }
{
    compare_all(alloc, modules, earlier.packages(), current.packages())
}
