//! The packages of a kept snapshot, by their numbers.
ghost use Rattle.std.specs.Prelude.{◌≡◌, ◌<◌, ◌≤◌, ◌++◌, ◌∷◌, ℕ, [], All, IfOk, IsTrue, Some, false, length, slice_get, string_bytes, take, true};
ghost use Rattle.std.specs.List.{AllWithin};
ghost use Rattle.std.specs.List.Sorted.{IsStrictlySortedBy};
ghost use Rattle.std.specs.Map.{keys_of};
ghost use Rattle.std.specs.Ordering.{is_lt};
ghost use Rattle.go_graph_core.specs.Workspaces.{AreAllRead, IsWorkspace, by_bytes, packages_inside};

use crate::overlay::lies_inside;
use go_board_core::submit_core::KeptSnapshot;
use go_graph_core::PackageSource;
use go_path_core::Module;
use std::alloc::{AllocError, Global};

// The package of a number.
fn package_of(snapshot: &KeptSnapshot, number: usize) -> &PackageSource
    requires { number < length snapshot.now.sources }
    ensures { slice_get snapshot.now.sources number ≡ Some result.now }
{
    match snapshot.package(number) {
        Some(package) => package,
        None => unreachable!(),
    }
}

// Whether the path of a package comes before a text.
fn is_before(source: &PackageSource, text: &str) -> bool
    ensures { result ≡ is_lt (by_bytes source.now.0 text.now) }
{
    source.path().as_str().cmp(text).is_lt()
}

// How many packages come before a text. Few paths are looked at.
fn count_before(snapshot: &KeptSnapshot, text: &str) -> usize
    requires { IsStrictlySortedBy by_bytes (keys_of snapshot.now.sources) }
    ensures bound { result ≤ length snapshot.now.sources }
    ensures before { AllWithin (λ p. is_lt (by_bytes p.0 text.now) ≡ true) snapshot.now.sources 0 result }
    ensures behind { AllWithin (λ p. is_lt (by_bytes p.0 text.now) ≡ false) snapshot.now.sources result (length snapshot.now.sources) }
{
    let mut low = 0;
    let mut high = snapshot.package_count();
    'halves: while low < high {
        let middle = low + (high - low) / 2;
        if is_before(package_of(snapshot, middle), text) {
            low = middle + 1;
        } else {
            high = middle;
        }
    }
    low
}

// The text behind all paths that lie below a module: `0` is the byte behind the slash.
fn text_behind(alloc: Global, own: &Module) -> Result<String, AllocError>
    ensures { IfOk result (λ text. string_bytes text ≡ own.now ++ 48 ∷ []) }
{
    let mut text = String::from_str(alloc, own.as_str())?;
    text.push_str("0")?;
    Ok(text)
}

// The numbers of packages from one up to another.
#[derive(Clone, Copy)]
struct Span {
    start: usize,
    end: usize,
}

// From the first package to the last that may lie inside a module: none lies there before them, and none behind.
fn span_of(alloc: Global, own: &Module, snapshot: &KeptSnapshot) -> Result<Span, AllocError>
    requires { IsWorkspace snapshot.now.sources }
    ensures within { IfOk result (λ s. s.end ≤ length snapshot.now.sources) }
    ensures before { IfOk result (λ s. packages_inside own.now (take s.start snapshot.now.sources) ≡ []) }
    ensures behind { IfOk result (λ s. (k : ℕ) → s.end ≤ k → packages_inside own.now (take k snapshot.now.sources) ≡ packages_inside own.now snapshot.now.sources) }
{
    let behind = text_behind(alloc, own)?;
    let start = count_before(snapshot, own.as_str());
    let end = count_before(snapshot, behind.as_str());
    Ok(Span { start, end })
}

// Whether the packages inside a module are these, in their order, where all of them have a number of the span.
#[tactic(auto, using(crate::proofs::QueriesInsides::inside_here, crate::proofs::QueriesInsides::inside_past))]
fn are_inside(own: &Module, snapshot: &KeptSnapshot, span: Span, packages: &[PackageSource]) -> bool
    requires within { span.end ≤ length snapshot.now.sources }
    requires before { packages_inside own.now (take span.start snapshot.now.sources) ≡ [] }
    requires behind { (k : ℕ) → span.end ≤ k → packages_inside own.now (take k snapshot.now.sources) ≡ packages_inside own.now snapshot.now.sources }
    requires all { All AreAllRead snapshot.now.sources }
    requires packages { All AreAllRead packages.now }
    ensures { IsTrue result → packages_inside own.now snapshot.now.sources ≡ packages.now }
{
    let mut count = 0;
    for number in span.start..span.end {
        let package = package_of(snapshot, number);
        if lies_inside(own, package.path()) {
            if count >= packages.len() || !package.is_same(&packages[count]) {
                return false;
            }
            count += 1;
        }
    }
    count == packages.len()
}

/// Whether the packages that lie inside a module are these, in their order. Those that stand apart from the module's are not looked at.
///
/// # Errors
///
/// `AllocError` where memory is wanting.
pub(crate) fn are_left(
    alloc: Global,
    own: &Module,
    snapshot: &KeptSnapshot,
    packages: &[PackageSource],
) -> Result<bool, AllocError>
    requires { All AreAllRead packages.now }
    ensures { IfOk result (λ is. IsTrue is → packages_inside own.now snapshot.now.sources ≡ packages.now) }
{
    // Its packages stand in order of path, and each file is read.
    let _count = snapshot.package_count();
    let span = span_of(alloc, own, snapshot)?;
    let is = are_inside(own, snapshot, span, packages);
    Ok(is)
}
