//! Where the packages of a module stand among others.
ghost use Rattle.std.specs.Prelude.{◌≡◌, ◌≤◌, ◌++◌, ◌∷◌, [], All, IfOk, false, length, string_bytes, true};
ghost use Rattle.std.specs.List.{AllWithin};
ghost use Rattle.std.specs.List.Sorted.{IsStrictlySortedBy};
ghost use Rattle.std.specs.Map.{keys_of};
ghost use Rattle.std.specs.Ordering.{is_lt};
ghost use Rattle.go_graph_core.specs.Workspaces.{AreAllRead, IsWorkspace, by_bytes, packages_inside};
ghost use Rattle.go_import_core.specs.head.Outside.{AreSameOutside};
ghost use Rattle.go_import_core.specs.head.Spans.{ArePieceOf, packages_near};
ghost use Rattle.go_import_core.specs.head.mirrors.Marking.{AreSameBut};

use go_graph_core::PackageSource;
use go_path_core::Module;
use std::alloc::{AllocError, Global};

// Whether the path of a package comes before a text.
fn is_before(source: &PackageSource, text: &str) -> bool
    ensures { result ≡ is_lt (by_bytes source.now.0 text.now) }
{
    source.path().as_str().cmp(text).is_lt()
}

// How many packages come before a text.
fn count_before(packages: &[PackageSource], text: &str) -> usize
    requires { IsStrictlySortedBy by_bytes (keys_of packages.now) }
    ensures bound { result ≤ length packages.now }
    ensures before { AllWithin (λ p. is_lt (by_bytes p.0 text.now) ≡ true) packages.now 0 result }
    ensures behind { AllWithin (λ p. is_lt (by_bytes p.0 text.now) ≡ false) packages.now result (length packages.now) }
{
    packages.partition_point(|source| is_before(source, text))
}

// The text behind all paths that lie below a module: `0` is the byte behind the slash.
fn text_behind(alloc: Global, own: &Module) -> Result<String, AllocError>
    ensures { IfOk result (λ text. string_bytes text ≡ own.now ++ 48 ∷ []) }
{
    let mut text = String::from_str(alloc, own.as_str())?;
    text.push_str("0")?;
    Ok(text)
}

/// Of packages in order of path, of which each file is read, those from the first to the last that may lie inside a module, by how their paths compare: all
/// that do are among them. Few paths are looked at.
///
/// # Errors
///
/// `AllocError` where memory is wanting.
pub fn span_of<'a>(
    alloc: Global,
    own: &Module,
    packages: &'a [PackageSource],
) -> Result<&'a [PackageSource], AllocError>
    requires well { IsWorkspace packages.now }
    requires read { All AreAllRead packages.now }
    ensures inside { IfOk result (λ span. packages_inside own.now span.now ≡ packages_inside own.now packages.now) }
    ensures read { IfOk result (λ span. All AreAllRead span.now) }
    ensures near { IfOk result (λ span. span.now ≡ packages_near own.now packages.now) }
    ensures piece { IfOk result (λ span. ArePieceOf span.now packages.now) }
{
    let behind = text_behind(alloc, own)?;
    let start = count_before(packages, own.as_str());
    let end = count_before(packages, behind.as_str());
    if start <= end {
        Ok(&packages[start..end])
    } else {
        Ok(packages)
    }
}

/// The packages from one number up to another.
#[derive(Clone, Copy)]
pub(crate) struct Span {
    pub(crate) start: usize,
    pub(crate) end: usize,
}

// Where two lists of packages may differ that are the same outside one module. Where the module stands at the same numbers in both, so do the packages before
// and behind it, and none of them is looked at.
fn changed_by_one(
    alloc: Global,
    own: &Module,
    packages: &[PackageSource],
    others: &[PackageSource],
) -> Result<Span, AllocError>
    requires outside { AreSameOutside (own.now ∷ []) packages.now others.now }
    requires one { IsWorkspace packages.now }
    requires other { IsWorkspace others.now }
    ensures within { IfOk result (λ s. s.end ≤ length others.now) }
    ensures same { IfOk result (λ s. AreSameBut packages.now others.now s.start s.end) }
{
    let behind = text_behind(alloc, own)?;
    let first = count_before(packages, own.as_str());
    let last = count_before(packages, behind.as_str());
    let start = count_before(others, own.as_str());
    let end = count_before(others, behind.as_str());
    if first == start && last == end {
        Ok(Span { start, end })
    } else {
        Ok(Span {
            start: 0,
            end: others.len(),
        })
    }
}

/// Where two lists of packages may differ that are the same outside modules: few paths are looked at where it is one module, and none else.
///
/// # Errors
///
/// `AllocError` where memory is wanting.
pub(crate) fn changed(
    alloc: Global,
    modules: &[Module],
    packages: &[PackageSource],
    others: &[PackageSource],
) -> Result<Span, AllocError>
    requires outside { AreSameOutside modules.now packages.now others.now }
    requires one { IsWorkspace packages.now }
    requires other { IsWorkspace others.now }
    ensures within { IfOk result (λ s. s.end ≤ length others.now) }
    ensures same { IfOk result (λ s. AreSameBut packages.now others.now s.start s.end) }
{
    if modules.len() == 1 {
        return changed_by_one(alloc, &modules[0], packages, others);
    }
    Ok(Span {
        start: 0,
        end: others.len(),
    })
}
