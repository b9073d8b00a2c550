//! In which package a workspace differs from an earlier one.
ghost use Rattle.std.specs.Prelude.{◌≡◌, ◌≢◌, ◌≤◌, ◌<◌, ℕ, All, IfOk, IsTrue, length, slice_get};
ghost use Rattle.go_graph_core.specs.Workspaces.{AreAllRead};
ghost use Rattle.go_import_core.specs.head.Heads.{HaveSameHeads};
ghost use Rattle.go_edit_core.specs.Edits.{DifferAt, IsChange};

use go_graph_core::{PackageSource, Workspace};
use go_import_core::head::compare;
use go_path_core::{ImportPath, Module};
use std::alloc::{AllocError, Global};

/// Where a workspace differs from an earlier one.
#[derive(Clone, Copy)]
pub(crate) enum Change {
    /// Nowhere.
    Nothing,
    /// In the package of this number alone, whose path is the same.
    One(usize),
    /// In more than that.
    More,
}

/// The first number, from one on, at which two lists have other packages; how many there are where there is none.
fn next_other(packages: &[PackageSource], others: &[PackageSource], from: usize) -> usize
    requires many { length packages.now ≡ length others.now }
    requires from { from ≤ length packages.now }
    requires own { All AreAllRead packages.now }
    requires other { All AreAllRead others.now }
    ensures from { from ≤ result }
    ensures within { result ≤ length packages.now }
    ensures same { (n : ℕ) → from ≤ n → n < result → slice_get packages.now n ≡ slice_get others.now n }
    ensures other { result < length packages.now → slice_get packages.now result ≢ slice_get others.now result }
{
    for number in from..packages.len() {
        if !packages[number].is_same(&others[number]) {
            return number;
        }
    }
    packages.len()
}

/// Where a workspace differs from an earlier one. Texts of packages are compared; the time is linear in them.
pub(crate) fn change_of(packages: &[PackageSource], others: &[PackageSource]) -> Change
    requires own { All AreAllRead packages.now }
    requires other { All AreAllRead others.now }
    ensures { IsChange packages.now others.now result }
{
    let count = packages.len();
    if count != others.len() {
        return Change::More;
    }
    let number = next_other(packages, others, 0);
    if number == count {
        return Change::Nothing;
    }
    if next_other(packages, others, number + 1) < count {
        return Change::More;
    }
    if packages[number].path().is_same(others[number].path()) {
        Change::One(number)
    } else {
        Change::More
    }
}

/// Whether the files of two workspaces have the same heads, where they differ in the package of a path alone.
///
/// # Errors
///
/// `AllocError` where memory is wanting.
pub(crate) fn have_same_heads(
    alloc: Global,
    earlier: &Workspace,
    current: &Workspace,
    number: usize,
) -> Result<bool, AllocError>
    requires { DifferAt earlier.now current.now number }
    ensures { IfOk result (λ is. IsTrue is → HaveSameHeads earlier.now current.now) }
{
    let path = current.packages()[number].path();
    let Ok(own) = Module::read(alloc, path.as_str()) else {
        return Err(AllocError);
    };
    let compared = compare(alloc, &[own], earlier, current)?;
    Ok(compared.heads)
}
